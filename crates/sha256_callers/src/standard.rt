// The definition of SHA-256 held to examples and to the standard's limits. Each function's contract is a theorem.
ghost use Rattle.std.specs.Prelude.{◌≡◌};
ghost use Rattle.sha256_callers.specs.Examples.{FirstExample, SecondExample, KnownName, LengthFits};

// FIPS 180-4's example of one block: the message abc.
pub fn first_example()
    ensures { FirstExample }
{}

// FIPS 180-4's example of two blocks: a message of 56 bytes.
pub fn second_example()
    ensures { SecondExample }
{}

// The name of a cell with one thread that starts at 4096.
pub fn known_name()
    ensures { KnownName }
{}

// Up to the standard's limit, what the padding has of the length is the length.
pub fn length_fits()
    ensures { LengthFits }
{}
