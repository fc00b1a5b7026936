use crate::answers::ANSWERS;
use crate::following::FOLLOWING;
use crate::life::LIFE;
use crate::many::MANY;
use crate::refusals::REFUSALS;
use crate::script::try_scripts;
use crate::untrue::UNTRUE;
use std::test::Fail;

#[test]
fn lines(rt: HostRuntime) -> Result<(), Fail> {
    try_scripts(&rt, rt.alloc(), FOLLOWING)
}

#[test]
fn refusals(rt: HostRuntime) -> Result<(), Fail> {
    let heap = rt.alloc();
    try_scripts(&rt, heap, REFUSALS)?;
    try_scripts(&rt, heap, UNTRUE)
}

#[test]
fn answers(rt: HostRuntime) -> Result<(), Fail> {
    let heap = rt.alloc();
    try_scripts(&rt, heap, LIFE)?;
    try_scripts(&rt, heap, ANSWERS)?;
    try_scripts(&rt, heap, MANY)
}
