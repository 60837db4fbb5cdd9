//! Blocks.
#![tactic(auto)]

ghost use Rattle.std.specs.Prelude.{◌≡◌, IfOk};
ghost use Rattle.sc_store.specs.OwnBlocks.{IsOwnBlock};
ghost use Rattle.sc_store.specs.BlockData.{block_data};

use sc_ids::BlockId;
use sc_shuffle::MapOutput;
use sc_work::Naming;
use std::alloc::AllocError;
use std::marker::{Model, PhantomData};

/// What a map task of the work left, which by its type is what the task is to have computed.
#[derive(Drop)]
pub struct Block<W: Naming> {
    id: BlockId,
    output: MapOutput,
    of: PhantomData<W>,
}

impl<W: Naming> Model for Block<W> {
    ghost use Rattle.sc_store.specs.BlockData.{BlockData, block_code, block_data};
    ghost use Rattle.sc_store.specs.OwnBlocks.{IsOwnBlock};

    ghost Value = { BlockData };

    ghost coded = { block_code };

    ghost view = { λ b. block_data b.id b.output };

    ghost invariant = { λ b. IsOwnBlock W.work b.id b.output };
}

impl<W: Naming> Block<W> {
    /// The output of a map task, under its name.
    pub fn new(id: BlockId, output: MapOutput) -> Block<W>
        requires own { IsOwnBlock W.work id output }
        ensures { result ≡ block_data id output }
    {
        Block {
            id,
            output,
            of: PhantomData,
        }
    }

    /// Its name.
    pub fn id(&self) -> BlockId
        ensures { result ≡ self.now.id }
    {
        self.id
    }

    /// The rows by bucket.
    pub fn output(&self) -> &MapOutput
        ensures { result.now ≡ self.now.output }
    {
        &self.output
    }

    /// The same block again, which copies nothing of it.
    pub fn share(&self) -> Result<Block<W>, AllocError>
        ensures { IfOk result (λ b. b ≡ self.now) }
    {
        Ok(Block {
            id: self.id,
            output: self.output.share()?,
            of: PhantomData,
        })
    }

    /// Its name and its rows by bucket.
    pub fn into_parts(self) -> (BlockId, MapOutput)
        ensures id { result.0 ≡ self.id }
        ensures output { result.1 ≡ self.output }
        ensures own { IsOwnBlock W.work result.0 result.1 }
    {
        let Block { id, output, .. } = self;
        (id, output)
    }

    /// What it is by its type.
    pub fn is_own(&self)
        ensures { IsOwnBlock W.work self.now.id self.now.output }
    {
        let _ = &self.output;
    }
}
