// The cells of a section, one after the other: which one holds an entry of the connectivity.
ghost use Rattle.std.specs.Prelude.{ℕ, ◌<◌};
ghost use Rattle.rows.specs.Rows.{Numbers};
ghost use Rattle.agreement.specs.Arrays.{Filled, AtMost};

use rows::Row;

// A cell: its place among those of its section, and where its entries end.
#[derive(Clone, Copy)]
pub struct Cell {
    pub place: usize,
    pub end: u64,
}

// The first cell of a section.
pub fn first_cell(image: &[u8], offsets: Row) -> Cell
    requires { Numbers image.now offsets.at offsets.width offsets.n × ((n : ℕ) × Filled image.now offsets n) }
    ensures { AtMost image.now offsets 0 result }
{
    Cell {
        place: 0,
        end: rows::number_at(image, offsets, 1),
    }
}

// The cell that holds entry k, where `cell` holds it or ends before it.
pub fn cell_at(image: &[u8], offsets: Row, n: usize, k: usize, cell: Cell) -> Cell
    requires numbers { Numbers image.now offsets.at offsets.width offsets.n × (Filled image.now offsets n × (k < n)) }
    requires at_most { AtMost image.now offsets k cell }
    ensures { AtMost image.now offsets k result × (k < result.end) }
{
    if (k as u64) < cell.end {
        return cell;
    }
    let place = cell.place + 1;
    Cell {
        place,
        end: rows::number_at(image, offsets, place + 1),
    }
}
