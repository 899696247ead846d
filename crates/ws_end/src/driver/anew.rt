//! A driver that begins anew.
ghost use Rattle.std.specs.Prelude.{◌≡◌, []};
ghost use Rattle.ws_end.specs.driver.Driven.{IsReached, driving};

use crate::{Driver, Reacts};
use ws_record::Live;

impl<R: Reacts> Driver<R> {
    // Begins anew, with what reacts as it is. It then has taken no byte.
    pub(crate) fn begin_anew(&mut self, collector: R::Collector)
        requires { R.Collector.keeper.holds collector [] [] }
        ensures led { (state : R.does.State) → R.does.stands self.old.reacts [] state
            → IsReached (driving R.Body.rules R.Collector.keeper R.does) self.new [] [] state }
        ensures same { self.new.reacts ≡ self.old.reacts }
    {
        self.live = Live::new();
        self.collector = collector;
        self.ended = None;
    }
}
