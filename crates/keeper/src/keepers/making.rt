// Making a keeper.
ghost use Rattle.std.specs.Prelude.{◌≡◌, Ok, Err, MatchResult};
ghost use Rattle.machine.specs.Machine.{all_fit, make};
ghost use Rattle.machine.specs.State.{fresh};

use crate::keepers::Keeper;
use crate::tables::Tables;
use figures::{Figures, Form};
use machine::{Block, BlockTable, Core, HungList, KeeperFault, Refusal, Reservation, Task, Worker};
use pools::Pool;

// Whether each figure of a form is within its limits.
fn fits(form: Form) -> bool
    ensures { result ≡ all_fit form }
{
    Figures::new(form).is_ok()
}

// A core as it is at the making.
fn fresh(form: Form) -> Core
    ensures { result ≡ fresh form }
{
    let reservation = Reservation {
        list: HungList::Off,
        era: 0,
    };
    let worker = Worker {
        takings: 0,
        task: Task::Idle,
        batch: None,
        shows: [None; 4],
    };
    Core {
        form,
        era: form.starting_era,
        live: 0,
        anchors: [None; 16],
        blocks: BlockTable {
            rows: [Block::FRESH; 2048],
        },
        reservations: [reservation; 32],
        workers: [worker; 8],
    }
}

impl<P: Pool + Drop> Keeper<P> {
    // A keeper with these figures and this pool; refused where a figure is outside its limits, or the pool has not as many
    // numbers as there are blocks, all in.
    pub fn make(form: Form, pool: P) -> Result<Keeper<P>, KeeperFault>
        ensures { MatchResult result (λ keeper. (make form (P.Pool.inside pool) ≡ Ok keeper.tables.core) × (keeper.pool ≡ pool)) (λ refused. make form (P.Pool.inside pool) ≡ Err refused) }
    {
        if !fits(form) || pool.size() != form.blocks || pool.count() != form.blocks {
            return Err(KeeperFault {
                refusal: Refusal::Misfit,
                place: 0,
            });
        }
        let tables = Tables { core: fresh(form) };
        Ok(Keeper { tables, pool })
    }
}
