// Units and starts of a text: the walk from start to start.
ghost use Rattle.std.specs.Prelude.{◌≡◌, ◌/◌, ◌≤◌, length};
ghost use Rattle.text.specs.Hex.{lines_of};
ghost use Rattle.units.specs.Units.{one_line, units_of, unit_at, length_at};
ghost use Rattle.translator.specs.Inside.{Digits, known_start, nearest_start, Stands, Sought};

use opcodes::Table;

// A start and its address.
#[derive(Clone, Copy)]
pub struct Start {
    pub place: usize,
    pub address: usize,
}

// A line of units, the bytes of which are digits, and the table of opcodes.
#[derive(Clone, Copy)]
pub struct Line<'a> {
    pub text: &'a [u8],
    pub table: &'a Table,
    ghost digits: { Digits text.now },
}

// Whether a text is one line of units.
pub fn is_one_line(text: &[u8]) -> bool
    ensures value { result ≡ one_line (lines_of text.now) }
{
    match text::line_at(text, 0) {
        text::LineRead::Whole(n) => n % 4 == 0 && text.len() - 1 == n,
        _ => false,
    }
}

impl<'a> Line<'a> {
    // How many units there are.
    pub fn count(self) -> usize
        ensures value { result ≡ length self.entry.text.now / 4 }
    {
        self.text.len() / 4
    }

    // The unit at a place, 0 past the last.
    #[tactic(auto, using(crate::proofs::UnitDigits::unit_four, units::proofs::Texts::unit_past, units::proofs::Texts::unit_below))]
    pub fn unit(self, at: usize) -> u16
        ensures value { result ≡ unit_at (units_of self.entry.text.now) at }
    {
        if at < self.count() {
            text::four_at(self.text, 4 * at) as u16
        } else {
            0
        }
    }

    // How many units the instruction at a place has, 0 where its opcode is unused.
    pub fn length_at(self, at: usize) -> usize
        ensures value { result ≡ length_at (units_of self.entry.text.now) at }
        ensures most { result ≤ 15 }
    {
        let [op, _] = self.unit(at).to_le_bytes();
        self.table.length(op) as usize
    }

    // The first start at or past a place, with its address; the last start, or the end, where there is none.
    pub fn seek(self, found: Start, here: Start, place: usize) -> Start
        requires { Stands (units_of self.text.now) found
            × Stands (units_of self.text.now) here
            × (here.place ≤ place) }
        ensures sought { Sought (units_of self.entry.text.now) place result }
    {
        let end = self.count();
        let mut to = nearest(found, here, place);
        while to.place < place {
            let n = self.length_at(to.place);
            if n == 0 || n > end - to.place {
                return to;
            }
            to = Start {
                place: to.place + n,
                address: to.address + 1,
            };
        }
        to
    }
}

// The start at a place before this one, among those that are known; this one where it is none of them.
pub fn known(starts: &[usize], here: Start, place: usize) -> Start
    requires { here.address ≤ length starts.now }
    ensures value { result ≡ known_start starts.now here place }
{
    match starts[..here.address]
        .iter()
        .position(|&start| start == place)
    {
        Some(address) => Start { place, address },
        None => here,
    }
}

// The start to walk from to a place: the last one found, or this one where that is past the place or before this one.
fn nearest(found: Start, here: Start, place: usize) -> Start
    ensures value { result ≡ nearest_start found here place }
{
    if place < found.place || found.place < here.place {
        here
    } else {
        found
    }
}
