//! Workers that are kept over many rounds, each at a desk of its own.

ghost use Rattle.std.specs.Prelude.{◌≡◌, IfOk, IfSome};

use crate::desk::Desk;
use crate::errand::Errand;
use crate::outcomes::Taken;
use crate::seats::{Giver, Worker};
use crate::steps::Deed;
use kdg_text::NoRoom;
use std::alloc::Global;
use std::marker::Model;
use std::sync::Arc;

/// A kept worker, as the thread sees it that gives it work. It is seen as what its desk was told.
#[derive(Drop)]
pub struct Partner<T: Drop, K, D: Deed<T, K>> {
    pub(crate) desk: Arc<Desk<T, K, D>>,
    pub(crate) giver: Giver<T, K>,
}

impl<T: Drop, K, D: Deed<T, K>> Model for Partner<T, K, D> {
    ghost use Rattle.std.specs.Arc.{arc_value};
    ghost use Rattle.std.specs.Prelude.{◌≡◌};

    ghost Value = { K };

    ghost view = { λ p. p.giver.key };

    ghost invariant = { λ p. p.giver.desk ≡ (arc_value p.desk).desk };
}

/// A kept worker at one desk, as its own thread sees it. It is seen as what the desk was told.
#[derive(Drop)]
pub struct Server<T: Drop, K, D: Deed<T, K>> {
    desk: Arc<Desk<T, K, D>>,
    worker: Worker<T, K>,
}

impl<T: Drop, K, D: Deed<T, K>> Model for Server<T, K, D> {
    ghost use Rattle.std.specs.Arc.{arc_value};
    ghost use Rattle.std.specs.Prelude.{◌≡◌};

    ghost Value = { K };

    ghost view = { λ s. s.worker.key };

    ghost invariant = { λ s. s.worker.desk ≡ (arc_value s.desk).desk };
}

/// A kept worker, as both threads see it.
pub fn meet<T: Drop, K, D: Deed<T, K>>(
    alloc: Global,
    key: &K,
) -> Result<(Partner<T, K, D>, Server<T, K, D>), NoRoom>
    ensures partner { IfOk result (λ made. made.0 ≡ key.now) }
    ensures server { IfOk result (λ made. made.1 ≡ key.now) }
{
    let (desk, giver, worker) = Desk::<T, K, D>::new(alloc, key)?;
    let Ok(desk) = Arc::new(alloc, desk) else {
        return Err(NoRoom);
    };
    let Ok(other) = Arc::try_clone(&desk) else {
        return Err(NoRoom);
    };
    Ok((Partner { desk: other, giver }, Server { desk, worker }))
}

impl<T: Drop, K, D: Deed<T, K>> Partner<T, K, D> {
    /// Gives work. This waits for nobody and takes no memory.
    pub fn give(self, x: T) -> Errand<T, K, D>
        requires { D.may self x }
        ensures { result ≡ record { key = self; given = x } }
    {
        let Partner { desk, giver } = self;
        let ticket = desk.give(giver, x);
        Errand { desk, ticket }
    }

    /// Tells the worker that nothing more comes. This waits for nobody and takes no memory.
    pub fn close(self) {
        let Partner { desk, giver } = self;
        desk.close(giver);
    }
}

impl<T: Drop, K, D: Deed<T, K>> Server<T, K, D> {
    /// Whether there is work, or none will come. That is a plain load.
    pub(crate) fn has_news(&self) -> bool {
        self.desk.has_news()
    }

    /// Performs the work, where there is some. The server comes back, but where none will come.
    pub(crate) fn serve_once<F: Fn(T) -> T>(self, perform: &F) -> Option<Server<T, K, D>>
        requires may { (x : T) → D.may self x → F.pre perform.now x }
        requires done { (x y : T) → D.may self x → F.post perform.now x y → D.done self x y }
        ensures { IfSome result (λ server. server ≡ self) }
    {
        let Server { desk, worker } = self;
        match desk.try_take(worker) {
            Taken::Work(task, x) => {
                let worker = desk.finish(task, perform(x));
                Some(Server { desk, worker })
            }
            Taken::Nothing(worker) => Some(Server { desk, worker }),
            Taken::Closed => None,
        }
    }
}
