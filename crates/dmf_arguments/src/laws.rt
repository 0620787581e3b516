ghost use Rattle.dmf_arguments.specs.PlainWords.{PlainWords};

/// The law of what clap's definition makes of plain words on the program's command line. It accepts the usual calls, and gives their
/// run. It refuses unknown commands, a missing or second path, and options in a wrong place or given twice.
pub fn plain_words_are_read()
    ensures { PlainWords }
{}
