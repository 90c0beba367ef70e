//! Stores over a device that fails where it is told to.
use disk::{FaultDisk, FaultPlan, Left};
use recovery::{Pick, Shape, Store};
use std::process::Abort;
use test_fixtures::{device_of, new_device, open_store, write};

/// No call fails.
pub const NEVER: FaultPlan = FaultPlan {
    call: u64::MAX,
    stops: false,
    left: Left::Nothing,
};

/// A store without a command, over a device of this shape.
pub fn store_by(
    rt: &(impl Abort + AllocGlobal),
    shape: Shape,
    plan: FaultPlan,
) -> Store<FaultDisk> {
    let device = new_device(rt.alloc(), shape).expect(rt, "a device");
    let disk = device_of(rt.alloc(), device.bytes()).expect(rt, "memory");
    open_store(rt.alloc(), FaultDisk::new(disk, plan), Pick::Newer).expect(rt, "a store")
}

/// The first call behind the commit of a first command of one letter fails, and no other one.
pub fn fails_second(rt: &(impl Abort + AllocGlobal), shape: Shape) -> FaultPlan {
    let mut store = store_by(rt, shape, NEVER);
    assert!(rt; write(rt.alloc(), &mut store, 1, 1).is_ok());
    let calls = store.close().disk().calls().len();
    FaultPlan::fail(calls as u64, Left::Nothing)
}
