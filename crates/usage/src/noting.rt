// What a read is noted on.
use pointers::tables::Tables;
use ranges::sheet::Sheet;

// The tables that are read, and the sheet on which the bytes used are noted.
#[derive(Drop)]
pub struct Noting<'a> {
    pub tables: &'a Tables<'a>,
    pub sheet: &'a mut Sheet,
}
