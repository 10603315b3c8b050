ghost use Rattle.std.specs.Prelude.{◌≡◌};
ghost use Rattle.description.specs.Kinds.{kind_of};

use command::Fault;

// The plan that the plan's line names. The codes of a written one stand in the lines after it.
#[derive(Clone, Copy)]
pub enum PlanKind {
    Powers,
    Groups,
    Written,
}

impl TryFrom<&[u8]> for PlanKind {
    type Error = Fault;

    ghost try_from_gives = { λ token r. r ≡ kind_of token.now };

    // The plan that a token names.
    #[tactic(auto, using(command::proofs::Names::bytes_eq_reads))]
    fn try_from(token: &[u8]) -> Result<PlanKind, Fault> {
        match token {
            b"powers" => Ok(PlanKind::Powers),
            b"groups" => Ok(PlanKind::Groups),
            b"written" => Ok(PlanKind::Written),
            _ => Err(Fault::UnknownPlan),
        }
    }
}
