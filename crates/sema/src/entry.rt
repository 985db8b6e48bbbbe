// An entry of the table of names.
ghost use Rattle.std.specs.Prelude.{◌≡◌, ◌≤◌};
ghost use Rattle.lexer.specs.Names.{name_of};
ghost use Rattle.sema.specs.Entered.{row_as, with_bound, cells_of};

use lexer::name::Name;
use lexer::search::Named;
use parser::value_type::ValueType;

/// What a name stands for.
#[derive(Clone, Copy, PartialEq, Eq, Debug)]
pub enum Sort {
    /// One cell.
    Simple,
    /// Cells that a subscript chooses from.
    Array,
}

/// A declared name with its type and its cells. It holds the bytes of its name itself.
#[derive(Clone, Copy)]
pub struct NameEntry {
    pub(crate) name: Name,
    /// Its type.
    pub value_type: ValueType,
    /// What it stands for.
    pub sort: Sort,
    /// The first of its cells.
    pub cell: u32,
    /// How many cells it has.
    pub cells: u32,
}

impl Named for NameEntry {
    ghost spelled = { λ s. name_of s.name };

    fn name(&self) -> &[u8] {
        self.name.name()
    }
}

// The entry that is taken for a name that is not declared. A table that is not full holds it wherever no name was
// entered yet. It is written by hand, since a derive gives no contract.
impl Default for NameEntry {
    ghost use Rattle.std.specs.Prelude.{◌≡◌};
    ghost use Rattle.sema.specs.Tables.{nothing};
    ghost use Rattle.sema.specs.Entered.{row_as};

    ghost is_default = { λ e. row_as e ≡ nothing };

    fn default() -> NameEntry {
        NameEntry {
            name: Name::EMPTY,
            value_type: ValueType::Integer,
            sort: Sort::Simple,
            cell: 0,
            cells: 0,
        }
    }
}

impl NameEntry {
    // Completes the entry of a name whose high bound was read, if it has one, and answers how many cells it takes.
    pub(crate) fn complete(&mut self, high: Option<u16>) -> u32
        ensures row { row_as self.new ≡ with_bound (row_as self.old) high }
        ensures cells { result ≡ cells_of high }
        ensures bound { result ≤ 65536 }
    {
        match high {
            None => {
                self.cells = 1;
                1
            }
            Some(h) => {
                self.sort = Sort::Array;
                self.cells = h as u32 + 1;
                self.cells
            }
        }
    }
}
