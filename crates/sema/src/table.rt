// The table of names: room for 64.
ghost use Rattle.std.specs.Prelude.{◌≡◌, ◌*◌, ◌<◌, ◌≤◌, map};
ghost use Rattle.arrayvec.specs.ArrayVec.{array_vec_len};
ghost use Rattle.std.specs.Option.{option_map};
ghost use Rattle.base.specs.Limits.{most_names};
ghost use Rattle.lexer.specs.Names.{name_of};

use crate::entry::{NameEntry, Sort};
use crate::fault::{CheckFault, answer, unless};
use crate::view::{Declaration, Mention};
use arrayvec::ArrayVec;
use base::limits::{MOST_CELLS, MOST_NAMES};
use lexer::name::Name;
use lexer::search::{Named, find};

/// The declared names of a source in their order, with room for 64.
#[derive(Drop)]
pub struct NameTable {
    entries: ArrayVec<NameEntry, MOST_NAMES>,
    // How many cells the names take.
    cells: u32,
    ghost fits: { cells ≤ array_vec_len entries * 65536 },
}

impl NameTable {
    ghost use Rattle.sema.specs.Faults.{refusal_of, fault_in};
    ghost use Rattle.sema.specs.Tables.{empty, look, row_of, with_row, declare as declare_in};
    ghost use Rattle.sema.specs.Names.{declaration_refusal, use_refusal as used_in};
    ghost use Rattle.sema.specs.Sizes.{cells_at};
    ghost use Rattle.sema.specs.Entered.{row_as, cells_of, sort_of};
    ghost use Rattle.sema.specs.Tabled.{table_as};

    pub(crate) fn new() -> NameTable
        ensures { table_as result ≡ empty }
    {
        NameTable {
            entries: ArrayVec::new(),
            cells: 0,
        }
    }

    pub(crate) fn clear(&mut self)
        ensures { table_as self.new ≡ empty }
    {
        self.entries.clear();
        self.cells = 0;
    }

    /// The entries of the declared names, in the order of their declarations.
    pub fn entries(&self) -> &[NameEntry]
        ensures { map row_as result.now ≡ (table_as self.now).rows }
    {
        self.entries.as_slice()
    }

    /// How many cells the names take.
    pub fn cells(&self) -> u32
        ensures { result ≡ (table_as self.now).cells }
    {
        self.cells
    }

    /// The entry of a name, if it is declared.
    pub fn get(&self, name: &Name) -> Option<NameEntry>
        ensures { option_map row_as result ≡ look (table_as self.now).rows (name_of name.now) }
    {
        let entries = self.entries.as_slice();
        let i = find(entries, name.name())?;
        Some(entries[i])
    }

    // The entry of a name; the default if it is not declared.
    pub(crate) fn entry(&self, name: &Name) -> NameEntry
        ensures { row_as result ≡ row_of (table_as self.now) (name_of name.now) }
    {
        self.get(name).unwrap_or_default()
    }

    // Enters one name more, which takes the next cells. Its entry is completed in its place.
    fn enter(&mut self, d: Declaration)
        requires { array_vec_len self.old.entries < most_names }
        ensures { table_as self.new ≡ with_row (table_as self.old) (name_of d.name) d.value_type (sort_of d.high)
            (cells_of d.high) }
    {
        let i = self.entries.len();
        self.entries.push(NameEntry {
            name: d.name,
            value_type: d.value_type,
            sort: Sort::Simple,
            cell: self.cells,
            cells: 0,
        });
        self.cells += self.entries[i].complete(d.high);
    }

    // Declares a name. Refuses with 8 where it is declared already, and with 9 where it is the 65th.
    pub(crate) fn declare(&mut self, d: Declaration) -> Result<(), CheckFault>
        ensures fault { fault_in result ≡ declaration_refusal (table_as self.old) (name_of d.name) d.offset }
        ensures table { table_as self.new
            ≡ declare_in (table_as self.old) (name_of d.name) d.value_type (sort_of d.high) (cells_of d.high) }
    {
        if self.get(&d.name).is_some() {
            return Err(CheckFault::DeclaredTwice(d.offset));
        }
        if self.entries.is_full() {
            return Err(CheckFault::TooManyNames(d.offset));
        }
        self.enter(d);
        Ok(())
    }

    // Judges the use of a name. Refuses with 7 where it is not declared, and with 10 where a subscript is missing or
    // unwanted.
    pub(crate) fn judge(&self, m: Mention) -> Result<(), CheckFault>
        ensures { fault_in result ≡ used_in (table_as self.now) (name_of m.name) m.sort m.offset }
    {
        let entry = self.get(&m.name).ok_or(CheckFault::Undeclared(m.offset))?;
        answer(unless(entry.sort == m.sort, CheckFault::Subscript(m.offset)))
    }

    // The fault 13, where the cells up to and with those of this declared name are over 4,096.
    pub(crate) fn cells_fault(&self, d: Declaration) -> Option<CheckFault>
        ensures { option_map refusal_of result ≡ cells_at (table_as self.now) (name_of d.name) d.offset }
    {
        let e = self.entry(&d.name);
        unless(
            e.cell as u64 + e.cells as u64 <= MOST_CELLS as u64,
            CheckFault::TooManyCells(d.offset),
        )
    }
}
