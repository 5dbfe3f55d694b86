//! Which boot a CPU's part and the table of words belong to.
ghost use Rattle.std.specs.Prelude.{◌≡◌};

use boot_words::BootWords;
use std::marker::{Brand, PhantomData};

/// The name of a boot. Only contracts see what it names: the boot's table.
pub trait BootName {
    ghost use Rattle.boot_words.specs.Tables.{KnownTable};

    ghost table: { KnownTable };
}

impl BootName for Brand {
    ghost use Rattle.cpu_part.specs.Cpus.{no_table};
    ghost use Rattle.zone_blocks.specs.Config.{no_choices};

    ghost table = { record { table = no_table; frames = 0; cpus = 0; choices = no_choices } };
}

/// The table of a boot's words, which all its CPUs share by `&`.
#[derive(Drop)]
pub struct Tables<N: BootName> {
    pub words: BootWords,
    of: PhantomData<N>,
    pub ghost words_are: { words ≡ N.table },
}

impl<N: BootName> Tables<N> {
    /// The table of the boot that N names.
    pub fn new(words: BootWords) -> Tables<N>
        requires { words ≡ N.table }
        ensures { result.words ≡ N.table }
    {
        Tables {
            words,
            of: PhantomData,
        }
    }

    /// The table, when the boot ends.
    pub fn into_words(self) -> BootWords
        ensures { result ≡ N.table }
    {
        let Tables { words, of: _ } = self;
        words
    }
}
