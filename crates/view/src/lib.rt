// The view (document 01, "The block"): "A console view holds the caller's table and walks it block by block without a copy". A position
// counts blocks. The functions that do the work come first; those of the struct only take it apart and call them.
#![tactic(auto)]

ghost use Rattle.std.specs.Prelude.{◌≡◌};
ghost use Rattle.table.specs.Fault.{fault_of};
ghost use Rattle.view.specs.View.{shown_at, block_or_end, block_offset, address_past, next_position, viewed, Opens, moved};

use line::checked_number;
use table::check;

// What is to be seen at a position, in numbers: the check's number, whether there is a block, where it lies in the table, and the next
// position.
#[derive(Clone, Copy)]
pub struct Looked {
    pub answer: u32,
    pub found: bool,
    pub offset: usize,
    pub next: usize,
}

// The number of the check.
fn answer_of(table: &[u8]) -> u32
    ensures { result ≡ fault_of table.now }
{
    checked_number(check(table))
}

// What an answer leaves of a table for a view: all of it at 0, else an empty part.
fn show(table: &[u8], answer: u32) -> &[u8]
    ensures { (result.now ≡ shown_at answer table.now) × (result.ref_ptr ≡ table.entry.ref_ptr) }
{
    if answer != 0 {
        return &table[0..0];
    }
    table
}

// The block at a position, where it lies; an empty part at the end.
#[tactic(auto, using(table::proofs::BlockLaws::lent), unfolding(crate::specs::View::block_or_end, crate::specs::View::block_offset, crate::specs::View::has_block))]
fn block_from(table: &[u8], position: usize) -> &[u8]
    ensures { (result.now ≡ block_or_end table.now position) × (result.ref_ptr ≡ address_past table.entry.ref_ptr (block_offset table.now position)) }
{
    let blocks = table.len() / 512;
    if position >= blocks {
        return &table[0..0];
    }
    let start = 512 * position;
    let end = start + 512;
    &table[start..end]
}

// The position after it; the end stays the end.
#[tactic(auto, unfolding(crate::specs::View::next_position, crate::specs::View::has_block))]
fn next_position(table: &[u8], position: usize) -> usize
    ensures { result ≡ next_position table.now position }
{
    if position >= table.len() / 512 {
        return position;
    }
    position + 1
}

// All of it for any bytes and any position, in numbers: "Over a table that isn't accepted it gives the check's number and no block".
#[tactic(auto, unfolding(crate::specs::View::viewed, crate::specs::View::shown, crate::specs::View::has_block, crate::specs::View::block_offset, crate::specs::View::next_position))]
pub fn look(table: &[u8], position: usize) -> Looked
    ensures { result ≡ viewed table.now position }
{
    let answer = answer_of(table);
    let blocks = show(table, answer).len() / 512;
    if position >= blocks {
        return Looked {
            answer,
            found: false,
            offset: 0,
            next: position,
        };
    }
    Looked {
        answer,
        found: true,
        offset: 512 * position,
        next: position + 1,
    }
}

// The view: the check's number, the bytes that it shows of the caller's table, which are none beside any number but 0, and a position in
// them. What it shows and where it stands are not public, so that no other crate can make a view or change one: each is what `open_view`
// has made of some table, moved on by `advance`.
#[derive(Clone, Copy)]
pub struct View<'a> {
    pub answer: u32,
    table: &'a [u8],
    position: usize,
}

// Checks the caller's table, once for the whole walk; the view stands at its first block.
#[tactic(auto, unfolding(crate::specs::View::shown))]
pub fn open_view<'a>(table: &'a [u8]) -> View<'a>
    ensures { Opens table.entry result }
{
    let answer = answer_of(table);
    let shown = show(table, answer);
    View {
        answer,
        table: shown,
        position: 0,
    }
}

// The block at the view's position, those 512 bytes of the caller's table; an empty part at the end.
pub fn current<'a>(view: View<'a>) -> &'a [u8]
    ensures { (result.now ≡ block_or_end view.entry.table.now view.entry.position) × (result.ref_ptr ≡ address_past view.entry.table.ref_ptr (block_offset view.entry.table.now view.entry.position)) }
{
    block_from(view.table, view.position)
}

// The view moved on by one block; at the end it stays there.
pub fn advance<'a>(view: View<'a>) -> View<'a>
    ensures { result ≡ moved view.entry }
{
    let position = next_position(view.table, view.position);
    View {
        answer: view.answer,
        table: view.table,
        position,
    }
}
