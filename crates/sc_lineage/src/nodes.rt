//! Nodes and actions.
#![tactic(auto)]

ghost use Rattle.std.specs.Prelude.{◌≡◌};
ghost use Rattle.std.specs.Option.{option_map};
ghost use Rattle.sc_lineage.specs.Saves.{dir_of_action};
ghost use Rattle.sc_lineage.specs.Views.{action_data_of};

use sc_columns::Rows;
use sc_expr::{Expr, Raise};
use sc_value::Name;

/// The number of a node, counted from 0 in the order of the definitions.
pub type NodeId = u32;

/// What an operation does with each row of its parent, by an expression: Spark's narrow
/// transformations of one RDD.
#[derive(Clone, Copy, Debug, PartialEq, Eq)]
pub enum Elementwise {
    /// The value of the expression at the row.
    Map,
    /// The row, where the expression holds there.
    Filter,
    /// The items of the list that the expression gives at the row.
    FlatMap,
    /// The row's key with the value of the expression at the row's value.
    MapValues,
    /// The row's key with each item of the list that the expression gives at the row's value.
    FlatMapValues,
}

/// What a shuffle of one parent does with its rows.
#[derive(Drop)]
pub enum Shuffling {
    /// Puts the values under each key together.
    ReduceByKey {
        /// The expression over two values.
        expr: Expr,
    },
    /// Gathers the values under each key.
    GroupByKey,
    /// Sorts by key: the partitions are ranges of keys.
    SortByKey,
    /// Deals the rows out in turn.
    Repartition,
}

/// What rows of two parents give that have the same key.
#[derive(Clone, Copy, Debug, PartialEq, Eq)]
pub enum Meeting {
    /// The values of both sides, gathered under each key.
    Cogroup,
    /// Each value of the left side with each of the right.
    Join,
}

/// A node of the lineage: an RDD with what it is made of.
#[derive(Drop)]
pub enum Node {
    /// The lines of an input, in so many even slices.
    Text {
        /// The name of the input.
        input: Name,
        /// The number of slices.
        slices: u32,
    },
    /// Literals, in so many even slices.
    Parallelize {
        /// The literals, all of them numbers or all of them texts.
        literals: Rows,
        /// The number of slices.
        slices: u32,
    },
    /// An operation with an expression, row by row of a parent.
    Each {
        /// What it does with a row.
        kind: Elementwise,
        /// The node whose rows it takes.
        parent: NodeId,
        /// The expression.
        expr: Expr,
    },
    /// The partitions of one node, and then those of another.
    Union {
        /// The node whose partitions stand first.
        left: NodeId,
        /// The node whose partitions stand behind them.
        right: NodeId,
    },
    /// The partitions of a parent, put together in runs.
    Coalesce {
        /// The node whose partitions they are.
        parent: NodeId,
        /// The number of runs, or the parent's partitions where these are fewer.
        partitions: u32,
    },
    /// The partitions of a parent, which are worth keeping.
    Cache {
        /// The node whose partitions they are.
        parent: NodeId,
    },
    /// The rows of a parent, shuffled.
    Shuffle {
        /// What is done with them.
        kind: Shuffling,
        /// The node whose rows they are.
        parent: NodeId,
        /// The number of partitions; of a sort the most that it has.
        partitions: u32,
    },
    /// The rows of two parents that have the same keys.
    Meet {
        /// What they give.
        kind: Meeting,
        /// The node whose rows stand first.
        left: NodeId,
        /// The node whose rows stand behind them.
        right: NodeId,
        /// The number of partitions.
        partitions: u32,
    },
}

/// What is done with a node.
#[derive(Drop)]
pub enum Action {
    /// Prints its rows in the order of the partitions, each on a line of its own.
    Collect {
        /// The node.
        node: NodeId,
    },
    /// Prints how many rows it has.
    Count {
        /// The node.
        node: NodeId,
    },
    /// Puts its rows together from the left, each partition and then the results.
    Reduce {
        /// The node.
        node: NodeId,
        /// The expression over two values.
        expr: Expr,
    },
    /// Saves its rows in a directory, each partition in a part of its own.
    Save {
        /// The node.
        node: NodeId,
        /// The directory.
        dir: Name,
    },
}

impl Action {
    /// The directory that it saves to, if it saves.
    pub fn saves_to(&self) -> Option<&Name>
        ensures { option_map (λ n. n.now) result ≡ dir_of_action (action_data_of self.now) }
    {
        match self {
            Action::Save { dir, .. } => Some(dir),
            Action::Collect { .. } | Action::Count { .. } | Action::Reduce { .. } => None,
        }
    }
}

/// Why the results of an action have no value, though no partition raises.
#[derive(Clone, Copy, Debug, PartialEq, Eq)]
pub enum DriverFault {
    /// There is no row to reduce.
    EmptyCollection,
    /// The fold of the results raises.
    Raised(Raise),
}
