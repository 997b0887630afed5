// How a call reads what it is lent.
ghost use Rattle.std.specs.Prelude.{◌≡◌};
ghost use Rattle.pointers.specs.Tables.{reading_new, reading_under};

use reads::text::Reading;

// How a slot's rebase is found: by its chain, or by halves in a table whose slots ascend.
#[derive(Clone, Copy)]
pub enum Lookup {
    Chained,
    Sorted,
}

// Under which reading texts are read, and how rebases are found.
#[derive(Clone, Copy)]
pub struct Setting {
    pub reading: Reading,
    pub lookup: Lookup,
}

impl Setting {
    // The new reading, with which every walk and listing begins; rebases by their chains.
    pub fn new() -> Setting
        ensures { result ≡ reading_new }
    {
        Setting::under(Reading::New)
    }

    // Either reading; rebases by their chains.
    pub fn under(reading: Reading) -> Setting
        ensures { result ≡ reading_under reading }
    {
        Setting {
            reading,
            lookup: Lookup::Chained,
        }
    }
}
