ghost use Rattle.std.specs.Prelude.{◌≡◌};
ghost use Rattle.rules.specs.Pit.{leader};
ghost use Rattle.console.specs.Permits.{Granted};

use crate::permit::Permit;
use rules::refusal::Refusal;

// A permit for a pit of n consoles under an own number, unless there is no such pit or no such number in it.
pub fn permit(n: u8, own: u8) -> Result<Permit, Refusal>
    ensures { Granted n own result }
{
    if n < 4 || n > 16 {
        return Err(Refusal::PitSize);
    }
    if own >= n {
        return Err(Refusal::OwnNumber);
    }
    Ok(Permit { n, own })
}

impl Permit {
    // The console that proposes in the view.
    pub(crate) fn leader(&self, view: u32) -> u8
        ensures { result ≡ leader self.now.n view }
    {
        (view % u32::from(self.n)) as u8
    }
}
