//! The first line of a script: a group, and its faulty members.

ghost use Rattle.std.specs.Prelude.{◌≡◌, IfOk, IfSome, option_map};
ghost use Rattle.pay_world.specs.Liars.{AreLiarsOf};
ghost use Rattle.pay_sim.specs.Group.{fitting, script_group_in, numbers_if_short, liars_said};

use pay_link::{Genesis, GenesisFault, numbers_at, value_in};
use pay_world::{LiarFault, Liars};
use std::alloc::{AllocError, Global};

/// The group of a script.
#[derive(Debug, Drop)]
pub(crate) struct ScriptGroup {
    pub(crate) genesis: Genesis,
    pub(crate) liars: Liars,
}

/// Returns the group that `bytes`, a file of JSON, contain, or `None` if they contain none.
#[tactic(auto, unfolding(crate::specs::Group::script_group_in, crate::specs::Group::with_liars))]
pub(crate) fn read_group(alloc: Global, bytes: &[u8]) -> Result<Option<ScriptGroup>, AllocError>
    ensures value { IfOk result (λ group. group ≡ script_group_in bytes.now) }
    ensures liars { IfOk result (λ group. IfSome group (λ g. AreLiarsOf g.genesis g.liars)) }
{
    let genesis = match Genesis::read(alloc, bytes) {
        Ok(genesis) => genesis,
        Err(GenesisFault::Memory) => return Err(AllocError),
        Err(_) => return Ok(None),
    };
    let Some(numbers) = liars_said(alloc, bytes)? else {
        return Ok(None);
    };
    match Liars::new(alloc, &genesis, numbers.as_slice()) {
        Ok(liars) => Ok(Some(ScriptGroup { genesis, liars })),
        Err(LiarFault::Memory) => Err(AllocError),
        Err(_) => Ok(None),
    }
}

/// Returns the faulty members that a file of JSON contains, if each could be a member's number.
#[tactic(auto, unfolding(crate::specs::Group::liars_said))]
fn liars_said(alloc: Global, bytes: &[u8]) -> Result<Option<Vec<u16>>, AllocError>
    ensures { IfOk result (λ said. option_map (λ liars. liars.items) said
        ≡ fitting (liars_said bytes.now)) }
{
    let Some(value) = value_in(alloc, bytes)? else {
        return Ok(None);
    };
    let Some(numbers) = numbers_at(alloc, &value, "liars")? else {
        return Ok(None);
    };
    as_members(alloc, numbers.as_slice())
}

/// Returns `numbers` in 16 bits, if they fit.
fn as_members(alloc: Global, numbers: &[u64]) -> Result<Option<Vec<u16>>, AllocError>
    ensures { IfOk result (λ members. option_map (λ members. members.items) members
        ≡ numbers_if_short numbers.now) }
{
    let mut members = Vec::new(alloc);
    for number in numbers {
        let Ok(member) = u16::try_from(*number) else {
            return Ok(None);
        };
        members.push(member)?;
    }
    Ok(Some(members))
}
