ghost use Rattle.bmc_io.specs.Told.{TellsLength};

/// A sink that counts from 0 tells the length of the text that it took.
pub fn a_count_is_the_length()
    ensures { TellsLength }
{}
