//! From the tokens of a line to its form.
#![tactic(auto)]

ghost use Rattle.sc_script.specs.Parsing.{IsFormOf};
ghost use Rattle.sc_script.specs.FormReading.{reading_of, nothing_read, token_read, head_read, arg_read, with_arg, with_head, list_closed, args_at_end, args_from, first_word, begins_with_equals, action_from, definition_from, form_from, Reads};
ghost use Rattle.sc_script.specs.Views.{token_data_of, head_data_of, arg_data_of, form_data_of};
ghost use Rattle.std.specs.Prelude.{◌≡◌, map, Some, drop};
ghost use Rattle.std.specs.Option.{option_to_list};
ghost use Rattle.std.specs.Vec.Iter.{into_iter_items};

use crate::faults::{FaultKind, LineError};
use crate::tokens::Token;
use sc_value::Text;
use std::alloc::Global;
use std::mem;
use std::vec::IntoIter;

/// The head of a list.
#[derive(Drop)]
pub enum Head {
    /// A word.
    Word(Text),
    /// A sign.
    Sign(Text),
}

/// An argument.
#[derive(Drop)]
pub enum Arg {
    /// A number.
    Int(i64),
    /// A text.
    Text(Text),
    /// A word.
    Word(Text),
    /// A head with arguments, in parentheses.
    List(Head, Vec<Arg>),
}

/// The form of a line.
#[derive(Drop)]
pub enum Form {
    /// A name, `=`, an operation and its arguments.
    Definition(Text, Text, Vec<Arg>),
    /// An action and its arguments.
    Action(Text, Vec<Arg>),
}

/// A list whose closing parenthesis hasn't come: its head, and the arguments before the list.
#[derive(Drop)]
struct OpenList {
    head: Head,
    before: Vec<Arg>,
}

/// What the tokens so far leave.
#[derive(Drop)]
struct ArgsReader {
    /// The lists that aren't closed, the outermost first.
    open_lists: Vec<OpenList>,
    /// The arguments of the innermost list.
    args: Vec<Arg>,
    /// Whether a parenthesis has been opened whose head comes next.
    awaits_head: bool,
}

impl ArgsReader {
    /// Nothing read yet.
    fn new(alloc: Global) -> ArgsReader
        ensures { reading_of result ≡ nothing_read }
    {
        ArgsReader {
            open_lists: Vec::new(alloc),
            args: Vec::new(alloc),
            awaits_head: false,
        }
    }

    /// Reads one more token.
    fn read(&mut self, alloc: Global, token: Token) -> Result<(), LineError>
        ensures { Reads (λ _. reading_of self.new) result
            (token_read (reading_of self.old) (token_data_of token)) }
    {
        if self.awaits_head {
            self.read_head(alloc, token)
        } else {
            self.read_arg(token)
        }
    }

    /// Reads a token that is to be a head.
    fn read_head(&mut self, alloc: Global, token: Token) -> Result<(), LineError>
        ensures { Reads (λ _. reading_of self.new) result
            (head_read (reading_of self.old) (token_data_of token)) }
    {
        match token {
            Token::Word(w) => self.open(alloc, Head::Word(w)),
            Token::Sign(s) => self.open(alloc, Head::Sign(s)),
            Token::Open | Token::Close | Token::Equals | Token::Int(_) | Token::Text(_) => {
                Err(LineError::Fault(FaultKind::Syntax))
            }
        }
    }

    /// Reads a token among arguments.
    fn read_arg(&mut self, token: Token) -> Result<(), LineError>
        ensures { Reads (λ _. reading_of self.new) result
            (arg_read (reading_of self.old) (token_data_of token)) }
    {
        match token {
            Token::Open => {
                self.awaits_head = true;
                Ok(())
            }
            Token::Close => self.close(),
            Token::Int(n) => self.push(Arg::Int(n)),
            Token::Text(t) => self.push(Arg::Text(t)),
            Token::Word(w) => self.push(Arg::Word(w)),
            Token::Equals | Token::Sign(_) => Err(LineError::Fault(FaultKind::Syntax)),
        }
    }

    /// One argument more.
    fn push(&mut self, arg: Arg) -> Result<(), LineError>
        ensures { Reads (λ _. reading_of self.new) result
            (Some (with_arg (reading_of self.old) (arg_data_of arg))) }
    {
        self.args.push(arg)?;
        Ok(())
    }

    /// The head of the list that has been opened.
    fn open(&mut self, alloc: Global, head: Head) -> Result<(), LineError>
        ensures { Reads (λ _. reading_of self.new) result
            (Some (with_head (reading_of self.old) (head_data_of head))) }
    {
        let before = mem::replace(&mut self.args, Vec::new(alloc));
        self.open_lists.push(OpenList { head, before })?;
        self.awaits_head = false;
        Ok(())
    }

    /// Closes the innermost list: it is an argument of the list around it.
    fn close(&mut self) -> Result<(), LineError>
        ensures { Reads (λ _. reading_of self.new) result
            (list_closed (reading_of self.old).open_lists (reading_of self.old).args) }
    {
        let Some(list) = self.open_lists.pop() else {
            return Err(LineError::Fault(FaultKind::Syntax));
        };
        let args = mem::replace(&mut self.args, list.before);
        self.args.push(Arg::List(list.head, args))?;
        self.awaits_head = false;
        Ok(())
    }

    /// The arguments, where nothing is open.
    fn finish(self) -> Result<Vec<Arg>, LineError>
        ensures { Reads (λ v. map arg_data_of v.items) result (args_at_end (reading_of self)) }
    {
        if self.awaits_head || !self.open_lists.is_empty() {
            return Err(LineError::Fault(FaultKind::Syntax));
        }
        Ok(self.args)
    }
}

/// The arguments that the tokens write.
fn args_of(alloc: Global, tokens: IntoIter<Token>) -> Result<Vec<Arg>, LineError>
    ensures { Reads (λ v. map arg_data_of v.items) result
        (args_from (map token_data_of (into_iter_items tokens))) }
{
    let mut reader = ArgsReader::new(alloc);
    for token in tokens {
        reader.read(alloc, token)?;
    }
    reader.finish()
}

/// The word that the token is.
fn word_of(token: Option<Token>) -> Result<Text, LineError>
    ensures { Reads (λ w. w) result (first_word (map token_data_of (option_to_list token))) }
{
    match token {
        Some(Token::Word(w)) => Ok(w),
        _ => Err(LineError::Fault(FaultKind::Syntax)),
    }
}

/// Whether the second token is `=`.
fn is_definition(tokens: &[Token]) -> bool
    ensures { result ≡ begins_with_equals (drop 1 (map token_data_of tokens.now)) }
{
    matches!(tokens.get(1), Some(Token::Equals))
}

/// The definition of this name by the tokens behind `=`.
fn definition_of(alloc: Global, name: Text, mut tokens: IntoIter<Token>) -> Result<Form, LineError>
    ensures { Reads form_data_of result
        (definition_from name (map token_data_of (into_iter_items tokens))) }
{
    let operation = word_of(tokens.next())?;
    Ok(Form::Definition(name, operation, args_of(alloc, tokens)?))
}

/// The action of this name with the arguments that the tokens write.
fn action_of(alloc: Global, name: Text, tokens: IntoIter<Token>) -> Result<Form, LineError>
    ensures { Reads form_data_of result
        (action_from name (map token_data_of (into_iter_items tokens))) }
{
    Ok(Form::Action(name, args_of(alloc, tokens)?))
}

/// The form of a line with these tokens, as the reading of tokens gives it.
fn read_form(alloc: Global, tokens: Vec<Token>) -> Result<Form, LineError>
    ensures { Reads form_data_of result (form_from (map token_data_of tokens.items)) }
{
    let is_definition = is_definition(&tokens);
    let mut tokens = tokens.into_iter();
    let name = word_of(tokens.next())?;
    if is_definition {
        tokens.next();
        definition_of(alloc, name, tokens)
    } else {
        action_of(alloc, name, tokens)
    }
}

/// The form of a line with these tokens.
///
/// # Errors
///
/// `Syntax` where no form has these tokens.
#[tactic(auto, using(crate::proofs::FormLemmas::form_from_reading))]
pub fn form_of(alloc: Global, tokens: Vec<Token>) -> Result<Form, LineError>
    ensures { IsFormOf (map token_data_of tokens.items) result }
{
    read_form(alloc, tokens)
}
