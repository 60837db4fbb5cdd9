//! One attempt of a task, as states that are types.
//!
//! [`assign`] makes an [`Assigned`] of a task. It says what it is to read next ([`Next`]), and each
//! block that it reads makes it the next one ([`Took`]), or ends in a report. Once all is there it
//! is [`Read`]: partitions of `cache` nodes that the executor's store has it takes from there. Then
//! it computes ([`Did`]), for which it needs no store, and is [`Computed`]: what it computed of
//! `cache` nodes it keeps in the store; a map task's block is put there, which makes it [`Stored`],
//! and a result is reported at once, unless its job saves. So while a store is used nothing is
//! computed, and no row is copied. Each step takes its state and answers the next one or a report,
//! so none can come twice or in another order; a step that wants memory hands its state back.
//! [`Attempt`] holds an attempt in any of the states between which it can rest.
//!
//! Of a save it gives the text of its part. Once that is written it is [`Staged`], and asks whether
//! it may commit. Only one that may, which is [`Granted`], can move its part and be [`Moved`], and
//! only then it reports that it is saved. The calls on the files are others': one that failed, or a
//! grant that was denied, is told to the attempt, which reports it.
//!
//! What a state holds is right by its type: what was read are the own outputs of the blocks that
//! the task reads, in their order, and what was computed is the task's own value
//! (`specs/States.antt`). `specs/Steps.antt` says what each step does.
//!
//! Tasks and reports come from `sc_net`, stores from `sc_store`, and `sc_compute` computes. Where
//! the attempts run, and who receives their reports, is said by the crates above.
//!
//! After Spark's Task and its ShuffleBlockFetcherIterator.
#![tactic(auto)]

mod assigned;
mod attempts;
mod caching;
mod computed;
mod computing;
mod cursors;
mod keeping;
mod leaving;
mod made;
mod next;
mod read;
mod saving;
mod stored;
mod took;

pub use assigned::{Assigned, assign};
pub use attempts::Attempt;
pub use computed::Computed;
pub use next::Next;
pub use read::Read;
pub use saving::{Granted, Moved, Staged};
pub use stored::Stored;
pub use took::{Did, Took};
