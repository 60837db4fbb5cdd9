//! The tables of operations, actions and heads: a further one is one more line in each `match`.
#![tactic(auto)]

ghost use Rattle.std.specs.Prelude.{◌≡◌};
ghost use Rattle.sc_script.specs.Tables.{action_kinds, actions, found_in, head_kinds, named_head, operation_kinds, operations, signs, words};
ghost use Rattle.sc_script.specs.Views.{head_data_of};

use crate::trees;
use sc_expr::Head;
use sc_lineage::{Elementwise, Meeting};

/// What a definition may be by.
#[derive(Clone, Copy, Debug, PartialEq, Eq)]
pub enum Operation {
    /// The lines of an input.
    Text,
    /// Literals.
    Parallelize,
    /// An expression over each row.
    Each(Elementwise),
    /// The partitions of two nodes.
    Union,
    /// The partitions of a node, put together.
    Coalesce,
    /// The rows of a node, dealt out in turn.
    Repartition,
    /// The partitions of a node, worth keeping.
    Cache,
    /// The values under each key, put together by an expression.
    ReduceByKey,
    /// The values under each key, gathered.
    GroupByKey,
    /// The rows of a node, sorted by key.
    SortByKey,
    /// The rows of two nodes that have the same keys.
    Meet(Meeting),
}

/// What an action may be.
#[derive(Clone, Copy, Debug, PartialEq, Eq)]
pub enum ActionName {
    /// The rows of a node, printed.
    Collect,
    /// The number of its rows, printed.
    Count,
    /// Its rows, put together by an expression.
    Reduce,
    /// Its rows, saved in a directory.
    Save,
}

/// What may stand at a place among arguments.
#[derive(Clone, Copy, Debug, PartialEq, Eq)]
pub enum ArgKind {
    /// The name of an input.
    Input,
    /// The name of a directory.
    Directory,
    /// A number of partitions.
    Count,
    /// Literals of one kind to the end, one or more.
    Literals,
    /// Numbers to the end.
    Ints,
    /// Texts to the end.
    Texts,
    /// The name of a node.
    Node,
    /// An expression.
    Expr,
    /// Expressions to the end.
    Exprs,
    /// A text of one character.
    Character,
}

/// The operation of this name.
pub fn operation_named(word: &str) -> Option<Operation>
    ensures { result ≡ found_in operations word.now }
{
    match word {
        "text" => Some(Operation::Text),
        "parallelize" => Some(Operation::Parallelize),
        "map" => Some(Operation::Each(Elementwise::Map)),
        "filter" => Some(Operation::Each(Elementwise::Filter)),
        "flatMap" => Some(Operation::Each(Elementwise::FlatMap)),
        "mapValues" => Some(Operation::Each(Elementwise::MapValues)),
        "flatMapValues" => Some(Operation::Each(Elementwise::FlatMapValues)),
        "union" => Some(Operation::Union),
        "coalesce" => Some(Operation::Coalesce),
        "repartition" => Some(Operation::Repartition),
        "cache" => Some(Operation::Cache),
        "reduceByKey" => Some(Operation::ReduceByKey),
        "groupByKey" => Some(Operation::GroupByKey),
        "sortByKey" => Some(Operation::SortByKey),
        "cogroup" => Some(Operation::Meet(Meeting::Cogroup)),
        "join" => Some(Operation::Meet(Meeting::Join)),
        _ => None,
    }
}

/// The action of this name.
pub fn action_named(word: &str) -> Option<ActionName>
    ensures { result ≡ found_in actions word.now }
{
    match word {
        "collect" => Some(ActionName::Collect),
        "count" => Some(ActionName::Count),
        "reduce" => Some(ActionName::Reduce),
        "save" => Some(ActionName::Save),
        _ => None,
    }
}

/// The head that is written so.
pub fn head_named(head: &trees::Head) -> Option<Head>
    ensures { result ≡ named_head (head_data_of head.now) }
{
    match head {
        trees::Head::Word(word) => head_of_word(word.as_str()),
        trees::Head::Sign(sign) => head_of_sign(sign.as_str()),
    }
}

fn head_of_word(word: &str) -> Option<Head>
    ensures { result ≡ found_in words word.now }
{
    match word {
        "and" => Some(Head::And),
        "or" => Some(Head::Or),
        "not" => Some(Head::Not),
        "if" => Some(Head::If),
        "pair" => Some(Head::Pair),
        "fst" => Some(Head::Fst),
        "snd" => Some(Head::Snd),
        "list" => Some(Head::List),
        "len" => Some(Head::Len),
        "nth" => Some(Head::Nth),
        "sum" => Some(Head::Sum),
        "words" => Some(Head::Words),
        "cut" => Some(Head::Cut),
        "int" => Some(Head::Int),
        "text" => Some(Head::Text),
        "concat" => Some(Head::Concat),
        _ => None,
    }
}

fn head_of_sign(sign: &str) -> Option<Head>
    ensures { result ≡ found_in signs sign.now }
{
    match sign {
        "+" => Some(Head::Add),
        "-" => Some(Head::Sub),
        "*" => Some(Head::Mul),
        "/" => Some(Head::Div),
        "%" => Some(Head::Rem),
        "==" => Some(Head::Eq),
        "<" => Some(Head::Lt),
        "<=" => Some(Head::Le),
        _ => None,
    }
}

/// What an operation takes.
pub fn operation_takes(operation: Operation) -> &'static [ArgKind]
    ensures { result.now ≡ operation_kinds operation }
{
    match operation {
        Operation::Text => &[ArgKind::Input, ArgKind::Count],
        Operation::Parallelize => &[ArgKind::Count, ArgKind::Literals],
        Operation::Each(_) => &[ArgKind::Node, ArgKind::Expr],
        Operation::Union => &[ArgKind::Node, ArgKind::Node],
        Operation::Coalesce
        | Operation::Repartition
        | Operation::GroupByKey
        | Operation::SortByKey => &[ArgKind::Node, ArgKind::Count],
        Operation::Cache => &[ArgKind::Node],
        Operation::ReduceByKey => &[ArgKind::Node, ArgKind::Count, ArgKind::Expr],
        Operation::Meet(_) => &[ArgKind::Node, ArgKind::Node, ArgKind::Count],
    }
}

/// What an action takes.
pub fn action_takes(action: ActionName) -> &'static [ArgKind]
    ensures { result.now ≡ action_kinds action }
{
    match action {
        ActionName::Collect | ActionName::Count => &[ArgKind::Node],
        ActionName::Reduce => &[ArgKind::Node, ArgKind::Expr],
        ActionName::Save => &[ArgKind::Node, ArgKind::Directory],
    }
}

/// What a head takes.
pub fn head_takes(head: Head) -> &'static [ArgKind]
    ensures { result.now ≡ head_kinds head }
{
    match head {
        Head::Not
        | Head::Fst
        | Head::Snd
        | Head::Len
        | Head::Sum
        | Head::Words
        | Head::Int
        | Head::Text => &[ArgKind::Expr],
        Head::If => &[ArgKind::Expr, ArgKind::Expr, ArgKind::Expr],
        Head::List => &[ArgKind::Expr, ArgKind::Exprs],
        Head::Cut => &[ArgKind::Expr, ArgKind::Character],
        _ => &[ArgKind::Expr, ArgKind::Expr],
    }
}
