// A source of another machine, over a link that fails at first.
use far_keep::{FarSource, Fars, far_root};
use far_links::{Dial, FarFault, FarLinks};
use lxp_core::SourceFault;
use lxp_remote::WireFault;
use lxp_wire::FixedLink;
use mix_tree::Label;
use std::alloc::{AllocError, Global};
use std::test::Fail;

// What dials a link that first replies that it failed, and then tells one source, whose document is empty.
#[derive(Drop)]
struct LateDial;

impl Dial<FixedLink> for LateDial {
    fn dial(&self, alloc: Global, _: &Label, _: &Label) -> Result<FixedLink, AllocError> {
        let mut root = vec![in alloc; 0u8; 41]?;
        root[0] = 0x81;
        let mut replies = Vec::new(alloc);
        replies.push(Vec::from_slice(alloc, &[0x83])?)?;
        replies.push(Vec::from_slice(alloc, &[0x80, 0, 0, 0, 1])?)?;
        replies.push(root)?;
        replies.push(Vec::from_slice(alloc, &[0x82, 0, 0, 0, 0])?)?;
        Ok(FixedLink::new(replies))
    }
}

// How many trees the document of a far source has at its top, or why it isn't given.
fn filled(
    alloc: Global,
    fars: &mut FarLinks<FixedLink, LateDial>,
    far: &FarSource,
) -> Result<usize, SourceFault> {
    match fars.fill(alloc, far, far_root()) {
        Ok(list) => Ok(list.len()),
        Err(fault) => Err(fault),
    }
}

#[test]
fn a_far_source_that_failed_is_asked_again(rt: HostRuntime) -> Result<(), Fail> {
    let alloc = rt.alloc();
    let first = FarSource {
        replies: Label::of_text(alloc, b"replies")?,
        requests: Label::of_text(alloc, b"requests")?,
        number: 0,
    };
    let mut second = first.copy(alloc)?;
    second.number = 1;
    let mut fars = FarLinks::new(alloc, LateDial);
    let unopened = FarFault::Unopened(WireFault::PeerFailed);
    assert_eq!(rt; filled(alloc, &mut fars, &first), Err(SourceFault::Failed));
    assert_eq!(rt; fars.last(&first), Some(unopened));
    assert_eq!(rt; filled(alloc, &mut fars, &first), Ok(0));
    assert_eq!(rt; fars.last(&first), Some(unopened));
    assert_eq!(rt; filled(alloc, &mut fars, &second), Err(SourceFault::Failed));
    assert_eq!(rt; fars.last(&second), Some(FarFault::NoSource));
    Ok(())
}
