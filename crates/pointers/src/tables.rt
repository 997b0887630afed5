// All that a caller lends, as one value.
ghost use Rattle.std.specs.Prelude.{◌≡◌};
ghost use Rattle.reads.specs.Files.{files_lent};
ghost use Rattle.pointers.specs.Tables.{image_in, tables_of, under, with_index};

use crate::setting::Setting;
use reads::place::Image;
use std::marker::Model;

// The image, its sections and image info, the rebase and bind tables, the index over them, and the setting under which they are read.
#[derive(Drop)]
pub struct Tables<'a> {
    pub image: Image<'a>,
    pub sections: &'a [u64],
    pub info: &'a [u8],
    pub rebases: &'a [u64],
    pub binds: &'a [u64],
    pub index: &'a [u32],
    pub setting: Setting,
}

impl<'a> Model for Tables<'a> {
    ghost use Rattle.pointers.specs.Tables.{Tables as SpecTables, tables_of, under};

    ghost Value = { SpecTables };

    ghost view = { λ a. under a.setting (tables_of a.image.files a.image.words a.sections.now a.info.now a.rebases.now a.binds.now a.index.now) };
}

impl<'a> Tables<'a> {
    // The files and the segment table, as the reads take them.
    pub fn image(&self) -> &Image<'a>
        ensures { result.now ≡ image_in self.now }
    {
        &self.image
    }

    pub fn files(&self) -> &'a [&'a [u8]]
        ensures { files_lent result.now ≡ self.now.files }
    {
        self.image.files
    }

    pub fn segments(&self) -> &'a [u64]
        ensures { result.now ≡ self.now.segments }
    {
        self.image.segments
    }

    pub fn sections(&self) -> &'a [u64]
        ensures { result.now ≡ self.now.sections }
    {
        self.sections
    }

    pub fn info(&self) -> &'a [u8]
        ensures { result.now ≡ self.now.info }
    {
        self.info
    }

    pub fn rebases(&self) -> &'a [u64]
        ensures { result.now ≡ self.now.rebases }
    {
        self.rebases
    }

    pub fn binds(&self) -> &'a [u64]
        ensures { result.now ≡ self.now.binds }
    {
        self.binds
    }

    pub fn index(&self) -> &'a [u32]
        ensures { result.now ≡ self.now.index }
    {
        self.index
    }

    pub fn setting(&self) -> Setting
        ensures { result ≡ self.now.setting }
    {
        self.setting
    }

    // The same tables over these files, with this index and under this setting.
    fn with<'b>(&self, files: &'b [&'b [u8]], index: &'b [u32], setting: Setting) -> Tables<'b>
    where
        'a: 'b,
        ensures { let t = self.now in
            result ≡ under setting (tables_of (files_lent files.now) t.segments t.sections t.info t.rebases t.binds index.now) }
    {
        Tables {
            image: Image {
                files,
                segments: self.segments(),
            },
            sections: self.sections,
            info: self.info,
            rebases: self.rebases,
            binds: self.binds,
            index,
            setting,
        }
    }

    // The same tables under another setting.
    pub fn under(&self, setting: Setting) -> Tables<'a>
        ensures { result ≡ under setting self.now }
    {
        self.with(self.files(), self.index(), setting)
    }

    // The same tables with another index.
    pub(crate) fn with_index<'b>(&self, index: &'b [u32]) -> Tables<'b>
    where
        'a: 'b,
        ensures { result ≡ with_index self.now index.now }
    {
        self.with(self.files(), index, self.setting())
    }

    // The same tables over other files.
    pub fn over<'b>(&self, files: &'b [&'b [u8]]) -> Tables<'b>
    where
        'a: 'b,
        ensures { let t = self.now in
            result ≡ under t.setting (tables_of (files_lent files.now) t.segments t.sections t.info t.rebases t.binds t.index) }
    {
        self.with(files, self.index(), self.setting())
    }
}
