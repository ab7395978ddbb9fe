use crate::{Answer, Turn, VatEnd};
use link_workers::PairEnd;
use rpc_machine::{Command, Effects, Granted, Refusal};

/// An end of a vat, as its worker uses it.
#[derive(Drop)]
pub(crate) struct Worked<V> {
    pub(crate) end: VatEnd<V>,
}

impl<V> PairEnd for Worked<V> {
    ghost use Rattle.link_sides.specs.Sides.{down_by};
    ghost use Rattle.link_driver.specs.Works.{IsLater, StepsBy, later_self, later_through};

    ghost same = { λ x y. IsLater x.end.end y.end.end };

    ghost steps = { λ x told y. StepsBy x.end.end told y.end.end };

    ghost down_by = { λ x. down_by x.end.end.side };

    fn down(&self) -> Option<u16> {
        self.end.down()
    }

    #[tactic(auto, using(crate::proofs::Later::takes_later))]
    fn command(&mut self, command: Command) -> Result<(Granted, Effects), Refusal> {
        match self.end.command(command) {
            Answer::Done(granted, effects) => Ok((granted, effects)),
            Answer::Refused(refusal, _) => Err(refusal),
        }
    }

    #[tactic(auto, using(crate::proofs::Later::turns_later))]
    fn turn(&mut self) -> Result<Option<Effects>, u16> {
        match self.end.turn() {
            Turn::Idle => Ok(None),
            Turn::Handled(effects) => Ok(Some(effects)),
            Turn::Down(number) => Err(number),
        }
    }

    #[tactic(auto, using(crate::proofs::Later::flushes_later))]
    fn flush(&mut self) {
        let _count = self.end.flush();
    }

    fn recycle(&mut self, effects: Effects) {
        self.end.recycle(effects);
    }

    ghost same_self = { λ x. later_self x.end.end };

    ghost same_through = { λ x y z first then. later_through x.end.end y.end.end z.end.end first then };
}
