// Writing and reading records in a table that the caller lends: a block's record is the table's entry under its number.
ghost use Rattle.std.specs.Prelude.{◌≡◌};
ghost use Rattle.machine.specs.Machine.{answered, record_of, write, read};
ghost use Rattle.keeper.specs.Tables.{state, wrote, showed};

use crate::answers::place;
use crate::keepers::Keeper;
use machine::{KeeperFault, Refusal};
use pools::Pool;

// The record of the block that is shown, if one is.
fn record_of<R: Copy>(table: &[R], shown: Option<u16>) -> Option<R>
    ensures { result ≡ record_of table.now shown }
{
    table.get(shown? as usize).copied()
}

impl<P: Pool> Keeper<P> {
    // Replaces the record of a block that the worker owns, and no other.
    pub fn write<R: Copy>(
        &self,
        table: &mut [R],
        worker: u16,
        block: u16,
        value: R,
    ) -> Result<(), KeeperFault>
        ensures { answered (state self.now.tables.core (P.Pool.inside self.now.pool) table.old) table.new (wrote result) ≡ write (state self.now.tables.core (P.Pool.inside self.now.pool) table.old) worker block value }
    {
        let at = move |refusal| place(worker, refusal);
        let owner = self.tables.worker(worker).map_err(at)?;
        let target = self.tables.block(block).map_err(at)?;
        self.tables.must_serve(owner, table.len()).map_err(at)?;
        if !self.tables.owns(owner, target) {
            return Err(at(Refusal::OutOfHand));
        }
        table[block as usize] = value;
        Ok(())
    }

    // The record of the block that the worker's hold shows.
    pub fn read<R: Copy>(&self, table: &[R], worker: u16, hold: u16) -> Result<R, KeeperFault>
        ensures { answered (state self.now.tables.core (P.Pool.inside self.now.pool) table.now) table.now (showed result) ≡ read (state self.now.tables.core (P.Pool.inside self.now.pool) table.now) worker hold }
    {
        let at = move |refusal| place(worker, refusal);
        let reader = self.tables.worker(worker).map_err(at)?;
        let own = self.tables.hold(hold).map_err(at)?;
        self.tables.must_serve(reader, table.len()).map_err(at)?;
        let shown = self.tables.shown(reader, own);
        record_of(table, shown).ok_or(at(Refusal::OutOfHand))
    }
}
