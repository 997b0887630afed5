// Lists that are there, with their headers: an entry in the room of the header's spot is read without a lookup of its own.
ghost use Rattle.std.specs.Prelude.{◌≡◌, ◌+◌, ◌<◌, IfOk, IfSome};
ghost use Rattle.pointers.specs.Tables.{image_in};
ghost use Rattle.records.specs.Header.{list_size};
ghost use Rattle.records.specs.List.{list_at};
ghost use Rattle.records.specs.Tries.{Entry, Finds};

use crate::list::{Found, Layout, ListKind, first_found, layout_near, least, list_address};
use crate::near::Near;
use pointers::tables::Tables;
use reads::answer::{Missing, nonzero};
use reads::spot::spot_behind;

// A list: its layout, and its header.
#[derive(Clone, Copy)]
pub struct OpenList<'a> {
    layout: Layout,
    header: Near<'a>,
    ghost behind: { layout.base ≡ header.va + list_size },
}

impl<'a> OpenList<'a> {
    ghost use Rattle.records.specs.OpenList.{layout_of};

    // The list at an address. `list_at` has the same three steps, and drops the header.
    #[tactic(auto, using(reads::proofs::Outcomes::missed_then), unfolding(crate::specs::List::decode_list))]
    pub fn at(tables: &'a Tables<'a>, kind: ListKind, va: u64) -> Result<OpenList<'a>, Missing>
        ensures list { layout_of result ≡ list_at tables.now kind va }
        ensures tables { IfOk result (λ l. l.header.tables.now ≡ tables.now) }
    {
        nonzero(va)?;
        list_address(kind, va)?;
        let header = Near::at(tables, va, Layout::HEADER_SIZE)?;
        let layout = layout_near(&header, kind)?;
        Ok(OpenList { layout, header })
    }

    pub fn layout(&self) -> Layout
        ensures { result ≡ self.now.layout }
    {
        self.layout
    }

    // The tables that it lies in.
    pub(crate) fn tables(&self) -> &'a Tables<'a>
        ensures { result.now ≡ self.now.header.tables.now }
    {
        self.header.tables()
    }

    // Entry i, if it lies in the room of the header's spot and can be read.
    fn behind(&self, i: u32) -> Option<Found>
        requires { i < self.now.layout.count }
        ensures { IfSome result (Entry (image_in self.now.header.tables.now) self.now.layout i) }
    {
        let h = self.layout;
        let index = i as u64;
        let way = index * h.size as u64;
        let image = self.tables().image();
        let spot = spot_behind(
            image,
            self.header.spot(),
            Layout::HEADER_SIZE + way,
            least(h.kind),
        )?;
        Some(Found {
            index,
            va: h.base + way,
            spot,
        })
    }

    // The first entry from an index on, below the count, that can be read: it is mostly the entry of this index, in the room of the header's spot.
    pub(crate) fn first_found(&self, from: u32) -> Option<Found>
        ensures { Finds (image_in self.now.header.tables.now) self.now.layout from result }
    {
        let h = self.layout;
        if h.count <= from {
            return None;
        }
        if let Some(found) = self.behind(from) {
            return Some(found);
        }
        first_found(self.tables().image(), h, from)
    }
}
