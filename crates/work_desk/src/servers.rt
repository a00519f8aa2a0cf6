//! One thread that serves at several desks.

ghost use Rattle.std.specs.Prelude.{◌≡◌};

use crate::partner::Server;
use crate::pausing::pause;
use crate::steps::Deed;
use kdg_text::NoRoom;
use std::alloc::Global;
use std::marker::Model;
use std::snapshot::Snapshot;

/// How often one looks at all desks at a time.
const LOOKS: u32 = 1_000_000;

/// How often in a row one looks so often in vain before one stops: half a minute to a minute.
const PATIENCE: u32 = 64;

/// How often one performs work or looks so often. That is for longer than any run takes.
const TURNS: u64 = 1 << 40;

/// A kept worker at several desks, as its own thread sees it. It is seen as what each desk was told.
#[derive(Drop)]
pub struct Servers<T: Drop, K, D: Deed<T, K>> {
    told: Snapshot<K>,
    list: Vec<Option<Server<T, K, D>>>,
}

impl<T: Drop, K, D: Deed<T, K>> Model for Servers<T, K, D> {
    ghost use Rattle.std.specs.Prelude.{◌≡◌, IfSome};
    ghost use Rattle.std.specs.List.{All};

    ghost Value = { K };

    ghost view = { λ s. s.told.value };

    ghost invariant = { λ s. All (λ server. IfSome server (λ told. told ≡ s.told.value)) s.list.items };
}

impl<T: Drop, K, D: Deed<T, K>> Servers<T, K, D> {
    /// No desk yet.
    pub fn new(alloc: Global, key: &K) -> Servers<T, K, D>
        ensures { result ≡ key.now }
    {
        Servers {
            told: Snapshot::of(key),
            list: Vec::new(alloc),
        }
    }

    /// One more desk, which was told the same. It is looked at after the others.
    pub fn add(&mut self, server: Server<T, K, D>) -> Result<(), NoRoom>
        requires told { server ≡ self.old }
        ensures told { self.new ≡ self.old }
    {
        self.list.push(Some(server))?;
        Ok(())
    }

    /// Performs all work that comes, the first desk's first, until one of them is told that nothing
    /// more comes, or all were looked at in vain for long.
    pub fn serve<F: Fn(T) -> T>(self, perform: &F)
        requires may { (x : T) → D.may self x → F.pre perform.now x }
        requires done { (x y : T) → D.may self x → F.post perform.now x y → D.done self x y }
    {
        let mut servers = self;
        let mut vain = 0u32;
        for _ in 0..TURNS {
            match servers.place_of_news() {
                Some(place) => {
                    if !servers.serve_at(place, perform) {
                        return;
                    }
                    vain = 0;
                }
                None if vain < PATIENCE => vain += 1,
                None => return,
            }
        }
    }

    /// The place of the first desk where there is work, or none will come, once one is found.
    fn place_of_news(&self) -> Option<usize> {
        for look in 0..LOOKS {
            for place in 0..self.list.len() {
                if let Some(server) = &self.list[place]
                    && server.has_news()
                {
                    return Some(place);
                }
            }
            pause(look);
        }
        None
    }

    /// Performs the work at one of the desks, where there is some, and answers whether more may come there.
    fn serve_at<F: Fn(T) -> T>(&mut self, place: usize, perform: &F) -> bool
        requires may { (x : T) → D.may self.old x → F.pre perform.now x }
        requires done { (x y : T) → D.may self.old x → F.post perform.now x y → D.done self.old x y }
        ensures told { self.new ≡ self.old }
    {
        let Some(desk) = self.list.get_mut(place) else {
            return false;
        };
        let Some(server) = desk.take() else {
            return false;
        };
        *desk = server.serve_once(perform);
        desk.is_some()
    }
}
