//! What the words mean, as they are written.

ghost use Rattle.sj_words.specs.Written.{MeansWhatIsWritten};

/// The words that are accepted are just those that are written as the grammar of the command line
/// has them, and they ask for what is written.
pub fn words_mean_what_is_written()
    ensures { MeansWhatIsWritten }
{}
