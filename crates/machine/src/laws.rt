// Laws over every run of the machine, whatever the calls and whichever numbers the pool hands out.
ghost use Rattle.machine.specs.CeilingKept.{BelowCeiling};
ghost use Rattle.machine.specs.Eras.{ErasInOrder};
ghost use Rattle.machine.specs.Structure.{StructureStands};
ghost use Rattle.machine.specs.Protection.{ShownBlocksKept};
ghost use Rattle.machine.specs.LookAnswers.{LooksAnswerNamed};
ghost use Rattle.machine.specs.ShortRun.{ShortRunSeen};

// In every run the era never falls, and no birth, no reservation and nothing that a task has noted is past it.
pub fn eras_stay_in_order<R>()
    ensures { ErasInOrder R }
{}

// In every run each block is pooled, live or retired, and one of these; a retired block waits in a worker's own batch or
// its batch hangs; what is given back is a whole batch, and the pool gains it; cells name only live blocks.
pub fn structure_stands<R>()
    ensures { StructureStands R }
{}

// In every run no more blocks are retired than the ceiling says, by the calls, their answers and the pool; no list and no
// walk is longer than its part of it; and where there are as many blocks as are needed, no call is refused as dry.
pub fn retired_stay_below_ceiling<R>()
    ensures { BelowCeiling R }
{}

// In every run a block that a hold shows is out of the pool, and has the record that it had when its taker linked it; a read
// answers that record; a taking never answers a block that a hold shows; and a batch's least birth is the smallest in it.
pub fn shown_blocks_are_kept<R>()
    ensures { ShownBlocksKept R }
{}

// In every run a finished look answers a block that its cell named at an earlier turn of that look, and that was live then; or
// nothing, where the cell held nothing then.
pub fn looks_answer_what_was_named<R>()
    ensures { LooksAnswerNamed R }
{}

// What the accounts that the two laws above speak of say of a short run.
pub fn accounts_see_a_short_run()
    ensures { ShortRunSeen }
{}
