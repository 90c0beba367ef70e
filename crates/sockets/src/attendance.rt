//! Who came, and what came of desks that served them.
ghost use Rattle.std.specs.Prelude.{◌≡◌};
ghost use Rattle.sockets.specs.Attendance.{IsOfNobody};

use crate::raw::Visits;
use std::alloc::Global;

/// Who came to desks: the visits of each desk, in the desks' order, and those who were turned away. It takes no memory but for the list of
/// the desks.
#[derive(Drop)]
pub struct Attendance {
    visits: Vec<Visits>,
    turned_away: Visits,
    is_complete: bool,
}

impl Attendance {
    pub(crate) fn new(visits: Vec<Visits>, turned_away: Visits, is_complete: bool) -> Attendance
        ensures { result ≡ record { visits = visits; turned_away = turned_away; is_complete = is_complete } }
    {
        Attendance {
            visits,
            turned_away,
            is_complete,
        }
    }

    /// Of nobody who came, where nothing was listened to.
    pub fn of_nobody(alloc: Global) -> Attendance
        ensures { IsOfNobody result }
    {
        Attendance {
            visits: Vec::new(alloc),
            turned_away: Visits::new(),
            is_complete: false,
        }
    }

    /// Whether all who came are here, and the listener had failed in the end.
    pub fn is_complete(&self) -> bool
        ensures { result ≡ self.now.is_complete }
    {
        self.is_complete
    }
}

/// What comes of desks that have served those who came: the desks in their order, the listener, and who came.
#[derive(Drop)]
pub struct Attended<K, N> {
    pub desks: Vec<K>,
    pub listener: N,
    pub attendance: Attendance,
}
