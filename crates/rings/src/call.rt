//! One call: the input is refused, or the engine runs and what it found is refused or delivered.
ghost use Rattle.std.specs.Prelude.{◌≡◌, replicate, OnOk, IfOk, IfErr};
ghost use Rattle.reading.specs.Reading.{compound};
ghost use Rattle.engine.specs.Reports.{Stands, Reports};
ghost use Rattle.rings.specs.Calls.{Names, Within, RefusedBy, Fit, Unfit, full_of, Fitting, Delivered, Answers};

use crate::{Answer, Full, Refusal};
use atoms::Net;
use engine::Found;
use reading::Fault;

/// Refusals 3 to 5, of a bond that is not fine.
impl From<Fault> for Refusal {
    ghost from_gives = { Names };

    #[tactic(auto, unfolding(reading::specs::Reading::fault_of))]
    fn from(fault: Fault) -> Refusal {
        match fault {
            Fault::NoAtom(bond) => Refusal::NoAtom(bond as u64),
            Fault::Loop(bond) => Refusal::Loop(bond as u64),
            Fault::Again(bond) => Refusal::Again(bond as u64),
        }
    }
}

/// Refusals 1 and 2, in their order.
fn within(n: usize, bonds: &[u8]) -> Result<(), Refusal>
    ensures within { OnOk result (Within (compound n bonds.now)) }
    ensures refused { IfErr result (RefusedBy (compound n bonds.now)) }
{
    if n == 0 || n > 64 {
        return Err(Refusal::WrongAtoms);
    }
    if bonds.len() % 2 == 1 || bonds.len() / 2 > 96 {
        return Err(Refusal::WrongBytes);
    }
    Ok(())
}

/// Refusals 3 to 6, in their order. What none of them refuses is read into the net, which has no bond yet.
fn admit(net: &mut Net, bonds: &[u8]) -> Result<(), Refusal>
    requires within { Within (compound net.old.n bonds.now) }
    requires adj_value { net.old.adj ≡ replicate 64 0 }
    requires touch_value { net.old.touch ≡ replicate 128 0 }
    ensures standing { OnOk result (Stands (compound net.old.n bonds.now) net.new) }
    ensures refused { IfErr result (RefusedBy (compound net.old.n bonds.now)) }
{
    reading::read(net, bonds)?;
    if search::in_one_piece(net.n, &net.adj) {
        Ok(())
    } else {
        Err(Refusal::Pieces)
    }
}

/// Refusals 7 to 9, in their order, of what the engine found and of so many lent bytes; or the number of rings.
fn fits(found: Found, row_bytes: usize, class_bytes: usize) -> Result<u64, Refusal>
    ensures fit { IfOk result (Fit found row_bytes class_bytes) }
    ensures unfit { IfErr result (Unfit found row_bytes class_bytes) }
{
    if found.families > (row_bytes / 8).min(4096) {
        return Err(Refusal::FewRows(found.families as u64));
    }
    if found.classes > class_bytes / 5 {
        return Err(Refusal::FewClassRows(found.classes as u64));
    }
    found.rings.ok_or(Refusal::ManyRings)
}

/// A compound that none of refusals 1 to 6 refuses, and the first row whose size is asked for.
#[derive(Clone, Copy)]
struct Accepted<'a> {
    /// The compound, as it was read.
    net: &'a Net,
    /// Its bonds.
    bonds: &'a [u8],
    /// The first row whose size is asked for.
    from: usize,
    ghost stands: { ∥ Stands (compound net.now.n bonds.now) net.now ∥₁ },
}

/// What a first run writes: room for 16 family rows, 8 class rows and 16 sizes.
#[derive(Drop)]
struct First {
    /// The family rows.
    rows: [u8; 128],
    /// The class rows.
    class_rows: [u8; 40],
    /// The sizes.
    sizes: [u64; 16],
}

impl Accepted<'_> {
    /// Hands over the rows and the sizes, all of which fit: from the room of the first run where they fit that too, by another run if not.
    #[tactic(auto, using(crate::proofs::Grounding::standing))]
    fn deliver(
        &self,
        first: &First,
        found: Found,
        family_rows: &mut [u8],
        class_rows: &mut [u8],
        sizes: &mut [u64],
    )
        requires reports { Reports (compound self.now.net.now.n self.now.bonds.now) self.now.from (replicate 128 0) (replicate 40 0) (replicate 16 0)
            found first.now.rows first.now.class_rows first.now.sizes }
        requires fitting { Fitting (compound self.now.net.now.n self.now.bonds.now) family_rows.old class_rows.old }
        ensures { Delivered (compound self.now.net.now.n self.now.bonds.now) self.now.from family_rows.old class_rows.old sizes.old
            family_rows.new class_rows.new sizes.new }
    {
        if found.families <= 16 && found.classes <= 8 {
            buffers::copy(family_rows, &first.rows, 8 * found.families);
            buffers::copy(class_rows, &first.class_rows, 5 * found.classes);
            buffers::copy_sizes(sizes, &first.sizes);
        } else {
            buffers::clear(sizes);
            engine::report(
                self.net,
                self.bonds,
                self.from,
                family_rows,
                class_rows,
                sizes,
            );
        }
    }

    /// The five numbers of a full answer.
    #[tactic(auto, unfolding(crate::specs::Calls::full_of))]
    fn numbers(&self, found: Found, rings: u64) -> Full
        ensures { result ≡ full_of (compound self.now.net.now.n self.now.bonds.now) found rings }
    {
        Full {
            cyclomatic: engine::cyclomatic(self.net.n, self.bonds) as u64,
            families: found.families as u64,
            classes: found.classes as u64,
            total: found.total,
            rings,
        }
    }

    /// Refusals 7 to 9, in their order, or the full answer. No lent buffer is touched before these are decided.
    #[tactic(auto, using(crate::proofs::Grounding::standing))]
    fn answer(&self, family_rows: &mut [u8], class_rows: &mut [u8], sizes: &mut [u64]) -> Answer
        ensures { Answers self.now.net.now.n self.now.bonds.now self.now.from family_rows.old class_rows.old sizes.old
            result family_rows.new class_rows.new sizes.new }
    {
        let mut first = First {
            rows: [0; 128],
            class_rows: [0; 40],
            sizes: [0; 16],
        };
        let found = engine::report(
            self.net,
            self.bonds,
            self.from,
            &mut first.rows,
            &mut first.class_rows,
            &mut first.sizes,
        );
        let rings = fits(found, family_rows.len(), class_rows.len())?;
        self.deliver(&first, found, family_rows, class_rows, sizes);
        Ok(self.numbers(found, rings))
    }
}

/// A call: the sizes of the families from row `from` on go into `sizes`, 0 past the last row.
pub fn answer(
    n: usize,
    bonds: &[u8],
    from: usize,
    family_rows: &mut [u8],
    class_rows: &mut [u8],
    sizes: &mut [u64],
) -> Answer
    ensures { Answers n bonds.now from family_rows.old class_rows.old sizes.old
        result family_rows.new class_rows.new sizes.new }
{
    within(n, bonds)?;
    let mut net = Net::bare(n);
    admit(&mut net, bonds)?;
    let accepted = Accepted {
        net: &net,
        bonds,
        from,
    };
    accepted.answer(family_rows, class_rows, sizes)
}
