// What the monitor does, as definitions, and what is promised of them: see specs/. Each function here has theorems as its contract.
#![tactic(auto)]

ghost use Rattle.model.specs.OneCell.{Plays, small, one_cell, one_name, refusals};
ghost use Rattle.model.specs.Promises.{InvariantHolds, RegistersGood, OfOneCell, SeesItsOwn, AtOnePlace, SealedRuns};
ghost use Rattle.model.specs.Promises.{SealedStays, HeldGetsZeros, HeldGetsOpen, GrownGets, OthersKeep};
ghost use Rattle.model.specs.Promises.{OpenPagesStay, RefusedKeeps, ErrorKeeps};
ghost use Rattle.model.specs.Promises.{Confidentiality, ConfidentialityOverRuns};
ghost use Rattle.model.specs.Promises.{IntegrityOfCalls, IntegrityOfGiving, IntegrityOfTakingBack, IntegrityOfStopping};
ghost use Rattle.model.specs.Promises.{IntegrityOfWrites, IntegrityOfRuns, IntegrityOverRuns, WorldsAreEvents};
ghost use Rattle.model.specs.Promises.{InvariantOfEvents, MeasuredInBlocks, MeasuredIsBuilt, SameMeasuredSameBuilt};
ghost use Rattle.model.specs.Promises.{ProcessorsAreMachines, PlaysInPlace, NotVacuous};

// The invariant holds of every world that can be, for any set of calls; and what runs has registers that are good.
pub fn invariant_holds()
    ensures { (InvariantHolds) × (RegistersGood) }
{}

// Each page is of one cell; a cell sees of closed pages only what it holds, each at one place; what runs is a thread of a sealed cell.
pub fn pages_are_owned()
    ensures { (OfOneCell) × ((SeesItsOwn) × ((AtOnePlace) × (SealedRuns))) }
{}

// What was measured of a sealed cell, and its top table, stay, and its phase never falls, over any run.
pub fn sealed_stays()
    ensures { SealedStays }
{}

// A page that a cell gets has zeros, or the words of the open page that was named; all others keep what they have.
pub fn pages_get()
    ensures { (HeldGetsZeros) × ((HeldGetsOpen) × ((GrownGets) × (OthersKeep))) }
{}

// The monitor never changes an open page; what is refused changes nothing, nor does what a cell is told an error for.
pub fn calls_keep()
    ensures { (OpenPagesStay) × ((RefusedKeeps) × (ErrorKeeps)) }
{}

// CONFIDENTIALITY: two worlds that look alike to an observer go on looking alike, and it is told the same in both, as long as the cells of
// others give the same away; in one act, and over whole runs.
pub fn nothing_gets_out()
    ensures { (Confidentiality) × (ConfidentialityOverRuns) }
{}

// INTEGRITY: nothing of a sealed cell is changed by calls that do not concern it, nor by runs of others; and in any run of others all but
// its spare pages is as it was, as long as it is not stopped.
pub fn nothing_gets_in()
    ensures { (IntegrityOfCalls) × ((IntegrityOfRuns) × (IntegrityOverRuns)) }
{}

// To give a sealed cell a spare page, to take one back, and to stop it changes that and nothing else; to write an open page nothing of it.
pub fn sealed_changes()
    ensures { (IntegrityOfGiving) × ((IntegrityOfTakingBack) × ((IntegrityOfStopping) × (IntegrityOfWrites))) }
{}

// A world that can be is what some events make, which the code can meet.
pub fn worlds_are_events()
    ensures { WorldsAreEvents }
{}

// The invariant holds of every state that events make, and what was measured of a cell is whole blocks.
pub fn events_keep()
    ensures { (InvariantOfEvents) × (MeasuredInBlocks) }
{}

// What was measured of a cell is the words of what calls put into it since it was made; and the same measured is the same built.
pub fn name_tells()
    ensures { (MeasuredIsBuilt) × (SameMeasuredSameBuilt) }
{}

// A good processor is a good machine, and does on the pages in place what it does as one.
pub fn processors_are_machines()
    ensures { (ProcessorsAreMachines) × (PlaysInPlace) }
{}

// There are a good processor, and two worlds that look alike to the system while a cell runs that holds other words in one of them.
pub fn not_vacuous()
    ensures { NotVacuous }
{}

// One cell, from its making to its end, is answered as the table says; a cell with one thread has the name that it should; and calls are
// refused in the order that is said.
pub fn one_cell_plays()
    ensures { (Plays small one_cell) × ((Plays small one_name) × (Plays small refusals)) }
{}
