// Why an image, or what is written, is refused, and who is at fault.
ghost use Rattle.std.specs.Prelude.{◌≡◌, ◌<◌, None, unwrap_or};
ghost use Rattle.rules.specs.Numbers.{most_actions};

use crate::Reason;

// The reason, with the lowest action at fault for it where there is one.
#[derive(Clone, Copy, PartialEq, Eq)]
pub struct Blame {
    pub reason: Reason,
    pub action: Option<u32>,
    pub ghost named: { unwrap_or action 0 < most_actions },
}

impl From<Reason> for Blame {
    ghost from_gives = { λ reason blame. (blame.reason ≡ reason) × (blame.action ≡ None) };

    fn from(reason: Reason) -> Self {
        Blame {
            reason,
            action: None,
        }
    }
}

impl Blame {
    // With an action at fault.
    pub fn on(reason: Reason, action: usize) -> Self
        requires { action < most_actions }
        ensures { (result.reason ≡ reason) × (result.action ≡ Some action) }
    {
        Blame {
            reason,
            action: Some(action as u32),
        }
    }
}
