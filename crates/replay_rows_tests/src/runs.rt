use crate::data::THREE_PLACES;
use replay_run::World;
use schedule_reading::read_schedule;
use std::test::Fail;

/// Whether `events` events were run, of two processes, and nothing was refused, spent or raw.
fn is_whole(world: &World, events: usize) -> bool {
    let counts = [
        world.players().len(),
        world.refused().len(),
        world.spent().len(),
        world.raws().len(),
    ];
    world.count() == events as u64 && counts == [2, 0, 0, 0]
}

#[test]
fn a_whole_schedule_is_run(rt: HostRuntime) -> Result<(), Fail> {
    let Ok(schedule) = read_schedule(rt.alloc(), THREE_PLACES) else {
        return Err(Fail::from("no schedule"));
    };
    let Ok(world) = World::run(rt.alloc(), &schedule) else {
        return Err(Fail::from("no run"));
    };
    assert!(rt; is_whole(&world, schedule.events.len()));
    Ok(())
}
