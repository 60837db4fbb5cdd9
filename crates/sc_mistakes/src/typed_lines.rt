//! Lines whose rows have no type.
#![tactic(auto)]

use crate::gives::{Gives, head_takes, is_given, wanted_word};
use crate::rows::{type_word, write_type, write_variables};
use crate::typing::{type_over, types_before};
use sc_pieces::{
    Argument, Found, Known, Note, Piece, arguments_from, closing, opens, operation_place, word_at,
};
use sc_value::{Texts, Ty};
use std::alloc::{AllocError, Global};

/// A line, where the types of its nodes are known.
#[derive(Clone, Copy)]
struct TypedLine<'a> {
    line: &'a str,
    pieces: &'a [Piece],
    operation: &'a str,
}

/// Why a line has no type, where `known` are the lines before it.
pub(crate) fn type_fault(
    alloc: Global,
    line: &str,
    pieces: &[Piece],
    lines: &Texts,
    known: &[Known],
    end: usize,
) -> Found {
    let types = types_before(alloc, lines, end)?;
    let start = operation_place(line, pieces);
    let arguments = arguments_from(alloc, pieces, start.saturating_add(1))?;
    let typed = TypedLine {
        line,
        pieces,
        operation: word_at(line, pieces, start).unwrap_or(""),
    };
    typed.fault(alloc, arguments.as_slice(), types.as_slice(), known)
}

/// The type of the rows of a name.
fn row_of<'a>(types: &'a [Ty], known: &[Known], name: &str) -> Option<&'a Ty> {
    let mut at: usize = 0;
    for one in known {
        if one.is_definition {
            if one.name.as_str() == name {
                return types.get(at);
            }
            at = at.saturating_add(1);
        }
    }
    None
}

impl<'a> TypedLine<'a> {
    /// What is wrong with arguments, where the types of the lines before are known.
    fn fault(&self, alloc: Global, arguments: &[Argument], types: &[Ty], known: &[Known]) -> Found {
        let (Some(first), Some(last)) = (arguments.first(), arguments.last()) else {
            return Ok(None);
        };
        let Some(row) = self.row_at(*first, types, known) else {
            return Ok(None);
        };
        if !matches!(self.operation, "union" | "join" | "cogroup") {
            return self.one_row(alloc, *first, row, *last);
        }
        let Some(second) = arguments.get(1) else {
            return Ok(None);
        };
        match self.row_at(*second, types, known) {
            Some(other) => self.two_rows(alloc, *first, row, *second, other),
            None => Ok(None),
        }
    }

    /// The type of the rows of a node that an argument names.
    fn row_at<'b>(&self, node: Argument, types: &'b [Ty], known: &[Known]) -> Option<&'b Ty> {
        row_of(types, known, node.place(self.pieces).part(self.line))
    }

    /// What is wrong with the rows of one node, or with an expression over them.
    fn one_row(&self, alloc: Global, node: Argument, row: &Ty, expr: Argument) -> Found {
        match self.operation {
            "map" => self.expr_fault(alloc, expr, row, Gives::Anything),
            "filter" => self.expr_fault(alloc, expr, row, Gives::Truth),
            "flatMap" => self.expr_fault(alloc, expr, row, Gives::List),
            "reduce" => self.expr_fault(alloc, expr, row, Gives::TheSame),
            _ => match row {
                Ty::Pair(key, value) => self.one_pair(alloc, node, key, value, expr),
                _ => self.no_pair(alloc, node, row),
            },
        }
    }

    /// The same of rows that are pairs.
    fn one_pair(
        &self,
        alloc: Global,
        node: Argument,
        key: &Ty,
        value: &Ty,
        expr: Argument,
    ) -> Found {
        match self.operation {
            "mapValues" => self.expr_fault(alloc, expr, value, Gives::Anything),
            "flatMapValues" => self.expr_fault(alloc, expr, value, Gives::List),
            _ => match key {
                Ty::Int | Ty::Text => self.expr_fault(alloc, expr, value, Gives::TheSame),
                _ => self.bad_key(alloc, node, key),
            },
        }
    }

    /// What is wrong with the rows of two nodes.
    fn two_rows(
        &self,
        alloc: Global,
        first: Argument,
        row: &Ty,
        second: Argument,
        other: &Ty,
    ) -> Found {
        if self.operation == "union" {
            return self.differ(alloc, "rows", second, row, other);
        }
        match (row, other) {
            (Ty::Pair(key, _), Ty::Pair(other_key, _)) => match (&**key, &**other_key) {
                (Ty::Int | Ty::Text, Ty::Int | Ty::Text) => {
                    self.differ(alloc, "keys", second, key, other_key)
                }
                (Ty::Int | Ty::Text, _) => self.bad_key(alloc, second, other_key),
                _ => self.bad_key(alloc, first, key),
            },
            (Ty::Pair(_, _), _) => self.no_pair(alloc, second, other),
            _ => self.no_pair(alloc, first, row),
        }
    }

    /// Two nodes whose rows, or keys, are of two types.
    fn differ(&self, alloc: Global, what: &str, at: Argument, a: &Ty, b: &Ty) -> Found {
        let operation = self.operation;
        let mut text = format!(in alloc; "{operation} takes two nodes with {what} of one type: ")?;
        text.push_str("here they are ")?;
        write_type(&mut text, a)?;
        text.push_str(" and ")?;
        write_type(&mut text, b)?;
        Ok(Some(Note::at(at.place(self.pieces), text)))
    }

    /// Rows that are no pairs.
    fn no_pair(&self, alloc: Global, node: Argument, row: &Ty) -> Found {
        let operation = self.operation;
        let mut text = format!(in alloc;
            "{operation} takes rows that are pairs, as (pair KEY x): "
        )?;
        text.push_str("these are ")?;
        write_type(&mut text, row)?;
        Ok(Some(Note::at(node.place(self.pieces), text)))
    }

    /// Keys that aren't sorted or dealt out.
    fn bad_key(&self, alloc: Global, node: Argument, key: &Ty) -> Found {
        let operation = self.operation;
        let mut text = format!(in alloc; "{operation} takes keys that are numbers or texts: ")?;
        text.push_str("these are ")?;
        write_type(&mut text, key)?;
        text.push_str("; a key of several parts is written as one text, by (text KEY)")?;
        Ok(Some(Note::at(node.place(self.pieces), text)))
    }

    /// What is wrong with an expression over a row.
    fn expr_fault(&self, alloc: Global, expr: Argument, row: &Ty, gives: Gives) -> Found {
        let found = self.head_fault(alloc, expr, row)?;
        if found.is_some() {
            return Ok(found);
        }
        match type_over(alloc, row, self.line, self.pieces, expr)? {
            Some(ty) if !is_given(gives, &ty, row) => {
                let text = self.given_text(alloc, &ty, row, gives)?;
                Ok(Some(Note::at(expr.place(self.pieces), text)))
            }
            _ => Ok(None),
        }
    }

    /// What an expression over a row is to give, and that it gives this.
    fn given_text(
        &self,
        alloc: Global,
        ty: &Ty,
        row: &Ty,
        gives: Gives,
    ) -> Result<String, AllocError> {
        let operation = self.operation;
        let wanted = wanted_word(gives);
        let found = type_word(ty);
        let mut text = format!(in alloc;
            "the expression of {operation} is to give {wanted}, and this gives {found}"
        )?;
        if matches!(gives, Gives::TheSame) {
            write_variables(&mut text, operation, row)?;
        }
        Ok(text)
    }

    /// The innermost head of an expression whose arguments have types that it doesn't take.
    fn head_fault(&self, alloc: Global, expr: Argument, row: &Ty) -> Found {
        for back in 0..self.pieces.len() {
            let at = self.pieces.len().saturating_sub(back).saturating_sub(1);
            if expr.first <= at && at <= expr.last && opens(self.pieces, at) {
                let last = closing(self.pieces, at);
                let list = Argument { first: at, last };
                if type_over(alloc, row, self.line, self.pieces, list)?.is_none() {
                    return Ok(Some(self.ill_typed(alloc, list, row)?));
                }
            }
        }
        Ok(None)
    }

    /// A head that doesn't take arguments of these types.
    fn ill_typed(&self, alloc: Global, list: Argument, row: &Ty) -> Result<Note, AllocError> {
        let mut text = String::new(alloc);
        self.write_ill_typed(alloc, &mut text, list, row)?;
        Ok(Note::at(list.place(self.pieces), text))
    }

    /// Writes what a head takes, and of which types its arguments are.
    fn write_ill_typed(
        &self,
        alloc: Global,
        text: &mut String,
        list: Argument,
        row: &Ty,
    ) -> Result<(), AllocError> {
        let head = list.first.saturating_add(1);
        let name = word_at(self.line, self.pieces, head).unwrap_or("");
        let takes = head_takes(name);
        write!(text, "`{name}` takes {takes}, and not ")?;
        let arguments = arguments_from(alloc, self.pieces, head.saturating_add(1))?;
        for (at, argument) in arguments.as_slice().iter().enumerate() {
            if at > 0 {
                text.push_str(" and ")?;
            }
            self.write_type_of(alloc, text, *argument, row)?;
        }
        write_variables(text, self.operation, row)
    }

    /// Writes of which type an argument is.
    fn write_type_of(
        &self,
        alloc: Global,
        text: &mut String,
        argument: Argument,
        row: &Ty,
    ) -> Result<(), AllocError> {
        match type_over(alloc, row, self.line, self.pieces, argument)? {
            Some(ty) => text.push_str(type_word(&ty)),
            None => text.push_str("this"),
        }
    }
}
