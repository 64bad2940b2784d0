// The way of a step: along an arc, or back. In lent rows a step is a number: 2e along arc e, and 2e + 1 back.
ghost use Rattle.std.specs.Prelude.{◌≡◌, ◌^◌, ◌<◌};
ghost use Rattle.rings.specs.Ways.{step_in};

// That its arc is one of the network is asked by the three functions that need it: a way that held its network would be
// five fields in place of a number.
#[derive(Clone, Copy)]
pub(crate) enum Way {
    Along(usize),
    Back(usize),
}

// By casts: between u64 and usize there is no `From`.
impl From<u64> for Way {
    fn from(step: u64) -> Way
        ensures { step_in result ≡ step }
    {
        let e = (step / 2) as usize;
        if step % 2 == 0 {
            Way::Along(e)
        } else {
            Way::Back(e)
        }
    }
}

impl Way {
    // The step's number. A method and no `From`, since it asks that the number fits.
    pub(crate) fn number(self) -> u64
        requires { step_in self < 2 ^ 64 }
        ensures { result ≡ step_in self }
    {
        match self {
            Way::Along(e) => 2 * e as u64,
            Way::Back(e) => 2 * e as u64 + 1,
        }
    }
}
