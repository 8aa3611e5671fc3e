// What is promised of the program that the public call runs: each function here has theorems as its contract.
ghost use Rattle.full_monitor.specs.Promises.{Right, RefusalKeeps, ErrorKeeps, EnoughMemory, GoesOn};
ghost use Rattle.full_monitor.specs.Promises.{TellsNoSecrets, TellsNoSecretsOverRuns, CellsAreKept, CellsAreKeptOverRuns};

// REFINEMENT: after anything, the program does what the definitions say; what is refused, or told an error, changes nothing; and the memory
// is as long as at the start.
pub fn program_is_right()
    ensures { (Right) × ((RefusalKeeps) × ((ErrorKeeps) × ((EnoughMemory) × (GoesOn)))) }
{}

// CONFIDENTIALITY: in two worlds that look alike to an observer the program tells the system the same bytes.
pub fn tells_no_secrets()
    ensures { (TellsNoSecrets) × (TellsNoSecretsOverRuns) }
{}

// INTEGRITY: of a sealed cell the program changes nothing by what others do.
pub fn cells_are_kept()
    ensures { (CellsAreKept) × (CellsAreKeptOverRuns) }
{}
