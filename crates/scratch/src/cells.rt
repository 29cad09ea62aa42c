// The cells of the lent memory: where each table's cells lie, which part of a cell a table takes, and how a cell is read and written.
// Memory is lent in cells of 32 bits or of 64 (`Width`). No other code knows where a cell lies or how wide it is.
ghost use Rattle.std.specs.Prelude.{◌≡◌, ℕ, ◌+◌, ◌<◌, List, refl, length, get_or, set};
ghost use Rattle.scratch.specs.Memory.{lows, lows-long, lows-cleared};
ghost use Rattle.scratch.specs.Clear.{Cleared};
ghost use Rattle.theory.specs.Bounds.{cell_bound};
ghost use Rattle.scratch.specs.Map.{cells, base, stride, part, place, part_of, with_part, bound, table};
ghost use Rattle.scratch.specs.Map.{Few, Room, Cell, Put};
ghost use Rattle.scratch.specs.Tables.{number_of, part_number};

use super::Shape;

// What every number in half a cell is below.
const HALF: u32 = 65536;

// The part of a cell that a table takes.
#[derive(Clone, Copy)]
enum Part {
    Whole,
    Low,
    High,
}

// The tables. `number_of` has their numbers, by which the laws of the map speak of them.
#[derive(Clone, Copy)]
pub enum Table {
    Labels,
    Queues,
    Spares,
    Firsts,
    ChildAfters,
    CardAfters,
    ShopAfters,
    Parents,
    CardNodes,
    ShopNodes,
    Weights,
}

// What every number that counts is below, whatever the cell's width.
pub const CELL_BOUND: u64 = 4294967296;

pub fn number(x: u32) -> usize
    ensures { (result ≡ x) × (result < cell_bound) }
{
    x as usize
}

// How wide the cells of lent memory are. Every number that is put there is below 2 ^ 32.
pub trait Width: Copy {
    // The cells themselves, as numbers.
    ghost held: { List Self → List ℕ };

    // The numbers that the cells hold.
    ghost memory: { List Self → List ℕ };

    // The number in cell `at`.
    fn get(cells: &[Self], at: usize) -> u32
        requires { at < length (memory cells.now) }
        ensures { result ≡ get_or (memory cells.now) at 0 };

    // Cell `at` becomes x.
    fn put(cells: &mut [Self], at: usize, x: u32)
        requires { at < length (memory cells.old) }
        ensures { memory cells.new ≡ set (memory cells.old) at x };

    // Sets every cell to 0.
    fn clear(cells: &mut [Self])
        ensures { Cleared (held cells.old) (held cells.new) };

    ghost memory_long: { (s : List Self) → length (memory s) ≡ length s };

    ghost memory_cleared: { (s s' : List Self) → Cleared (held s) (held s') → Cleared (memory s) (memory s') };
}

impl Width for u32 {
    ghost held = { λ s. s };

    ghost memory = { λ s. s };

    ghost memory_long = { λ s. refl };

    ghost memory_cleared = { λ s s' c. c };

    fn get(cells: &[u32], at: usize) -> u32 {
        cells[at]
    }

    fn put(cells: &mut [u32], at: usize, x: u32) {
        cells[at] = x;
    }

    fn clear(cells: &mut [u32]) {
        cells.fill(0);
    }
}

// Of a cell of 64 bits the low half counts, whatever the high half holds.
impl Width for u64 {
    ghost held = { λ s. s };

    ghost memory = { lows };

    ghost memory_long = { lows-long };

    ghost memory_cleared = { lows-cleared };

    fn get(cells: &[u64], at: usize) -> u32 {
        (cells[at] % CELL_BOUND) as u32
    }

    fn put(cells: &mut [u64], at: usize, x: u32) {
        cells[at] = u64::from(x);
    }

    fn clear(cells: &mut [u64]) {
        cells.fill(0);
    }
}

// Where cell 0 of table k lies.
fn table_start(sh: Shape, k: Table) -> usize
    requires { Few sh }
    ensures { result ≡ base sh (number_of k) }
{
    let g = sh.groups;
    let n = sh.rows;
    match k {
        Table::Labels => 0,
        Table::Firsts | Table::Queues => 1,
        Table::ChildAfters | Table::Spares => 2 * g + 4,
        Table::Parents => 2 * g + 5,
        Table::CardNodes | Table::CardAfters => 4 * g + 4,
        Table::ShopNodes | Table::ShopAfters => 4 * g + 5,
        Table::Weights => 4 * g + 2 * n + 4,
    }
}

// How far it is from one cell of table k to the next.
fn table_stride(k: Table) -> usize
    ensures { result ≡ stride (number_of k) }
{
    match k {
        Table::Weights => 1,
        _ => 2,
    }
}

// Which part of a cell table k takes.
fn table_part(k: Table) -> Part
    ensures { part_number result ≡ part (number_of k) }
{
    match k {
        Table::Labels | Table::Weights => Part::Whole,
        Table::Queues | Table::Spares | Table::CardAfters | Table::ShopAfters => Part::High,
        _ => Part::Low,
    }
}

// Where cell i of table k lies.
fn place(sh: Shape, k: Table, i: usize) -> usize
    requires few { Few sh }
    requires cell { Cell sh (number_of k) i }
    ensures { (result ≡ place sh (number_of k) i) × (result < cells sh) }
{
    table_start(sh, k) + table_stride(k) * i
}

// Part p of x.
fn part_of(p: Part, x: u32) -> u32
    ensures { result ≡ part_of (part_number p) x }
{
    match p {
        Part::Whole => x,
        Part::Low => x % HALF,
        Part::High => x / HALF,
    }
}

// x with y in part p.
fn with_part(p: Part, x: u32, y: u32) -> u32
    requires { y < bound (part_number p) }
    ensures { result ≡ with_part (part_number p) x y }
{
    match p {
        Part::Whole => y,
        Part::Low => x / HALF * HALF + y,
        Part::High => x % HALF + y * HALF,
    }
}

// Cell i of table k.
pub fn cell<W: Width>(sh: Shape, k: Table, i: usize, scratch: &[W]) -> usize
    requires room { Room sh (W.memory scratch.now) }
    requires cell { Cell sh (number_of k) i }
    ensures { (result ≡ table sh (W.memory scratch.now) (number_of k) i) × (result < cell_bound) }
{
    let at = place(sh, k, i);
    let part = table_part(k);
    number(part_of(part, W::get(scratch, at)))
}

pub fn set_cell<W: Width>(sh: Shape, k: Table, i: usize, x: usize, scratch: &mut [W])
    requires room { Room sh (W.memory scratch.old) }
    requires cell { Cell sh (number_of k) i }
    requires x_bound { x < bound (part (number_of k)) }
    ensures { Put sh (W.memory scratch.old) (W.memory scratch.new) (number_of k) i x }
{
    let at = place(sh, k, i);
    let part = table_part(k);
    let old = W::get(scratch, at);
    W::put(scratch, at, with_part(part, old, x as u32));
}
