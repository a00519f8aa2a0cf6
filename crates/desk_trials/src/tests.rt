use crate::doubling::{Doubling, serve, sum_of_doubles, taken_and_done};
use crate::kept::{are_served, is_away_untaken, kept_sum, serve_kept};
use std::test::Fail;
use std::thread::join;
use work_desk::{Desk, Servers, meet};

#[test]
fn a_kept_worker_performs_round_after_round(rt: HostRuntime) -> Result<(), Fail> {
    let (desk, giver, worker) = Desk::<u64, u32, Doubling>::new(rt.alloc(), &0)?;
    let desk = &desk;
    let (sum, ()) = join(
        &rt,
        move || sum_of_doubles(desk, giver, 900),
        move || serve(desk, worker),
    );
    assert_eq!(rt; sum, Some(809_100));
    Ok(())
}

#[test]
fn work_that_nobody_takes_comes_back(rt: HostRuntime) -> Result<(), Fail> {
    let (desk, giver, _worker) = Desk::<u64, u32, Doubling>::new(rt.alloc(), &0)?;
    assert_eq!(rt; sum_of_doubles(&desk, giver, 10), Some(90));
    Ok(())
}

#[test]
fn work_that_was_given_is_taken_and_collected_as_done(rt: HostRuntime) -> Result<(), Fail> {
    let (desk, giver, worker) = Desk::<u64, u32, Doubling>::new(rt.alloc(), &0)?;
    assert_eq!(rt; taken_and_done(&desk, giver, worker, 21), Some((21, 42)));
    Ok(())
}

#[test]
fn a_worker_at_two_desks_performs_round_after_round(rt: HostRuntime) -> Result<(), Fail> {
    let (one, first) = meet::<u64, u32, Doubling>(rt.alloc(), &0)?;
    let (other, second) = meet::<u64, u32, Doubling>(rt.alloc(), &0)?;
    let mut servers = Servers::new(rt.alloc(), &0);
    servers.add(first)?;
    servers.add(second)?;
    let (sum, ()) = join(
        &rt,
        move || kept_sum(one, other, 900),
        move || serve_kept(servers),
    );
    assert_eq!(rt; sum, Some(809_100));
    Ok(())
}

#[test]
fn both_desks_of_a_worker_are_served(rt: HostRuntime) -> Result<(), Fail> {
    let (one, first) = meet::<u64, u32, Doubling>(rt.alloc(), &0)?;
    let (other, second) = meet::<u64, u32, Doubling>(rt.alloc(), &0)?;
    let mut servers = Servers::new(rt.alloc(), &0);
    servers.add(first)?;
    servers.add(second)?;
    let (are_served, ()) = join(
        &rt,
        move || are_served(one, other),
        move || serve_kept(servers),
    );
    assert!(rt; are_served);
    Ok(())
}

#[test]
fn work_that_nobody_takes_is_not_away(rt: HostRuntime) -> Result<(), Fail> {
    let (partner, _server) = meet::<u64, u32, Doubling>(rt.alloc(), &0)?;
    assert!(rt; !is_away_untaken(partner));
    Ok(())
}

#[test]
fn partners_without_a_server_get_their_work_back(rt: HostRuntime) -> Result<(), Fail> {
    let (one, _first) = meet::<u64, u32, Doubling>(rt.alloc(), &0)?;
    let (other, _second) = meet::<u64, u32, Doubling>(rt.alloc(), &0)?;
    assert_eq!(rt; kept_sum(one, other, 10), Some(90));
    Ok(())
}
