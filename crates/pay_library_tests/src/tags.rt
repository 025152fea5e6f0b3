//! Tags that others computed.

use pay_hmac::mac;
use std::alloc::Global;
use std::test::Fail;

struct Case {
    key: &'static [u8],
    text: &'static [u8],
    tag: &'static str,
}

/// The seven cases of RFC 4231. The fifth case prints the first 16 bytes of its tag.
const PUBLISHED: &[Case] = &[
    Case {
        key: &[0x0b; 20],
        text: b"Hi There",
        tag: "b0344c61d8db38535ca8afceaf0bf12b881dc200c9833da726e9376c2e32cff7",
    },
    Case {
        key: b"Jefe",
        text: b"what do ya want for nothing?",
        tag: "5bdcc146bf60754e6a042426089575c75a003f089d2739839dec58b964ec3843",
    },
    Case {
        key: &[0xaa; 20],
        text: &[0xdd; 50],
        tag: "773ea91e36800e46854db8ebd09181a72959098b3ef8c122d9635514ced565fe",
    },
    Case {
        key: &[
            0x01, 0x02, 0x03, 0x04, 0x05, 0x06, 0x07, 0x08, 0x09, 0x0a, 0x0b, 0x0c, 0x0d, 0x0e,
            0x0f, 0x10, 0x11, 0x12, 0x13, 0x14, 0x15, 0x16, 0x17, 0x18, 0x19,
        ],
        text: &[0xcd; 50],
        tag: "82558a389a443c0ea4cc819899f2083a85f0faa3e578f8077a2e3ff46729665b",
    },
    Case {
        key: &[0x0c; 20],
        text: b"Test With Truncation",
        tag: "a3b6167473100ee06e0c796c2955552b",
    },
    Case {
        key: &[0xaa; 131],
        text: b"Test Using Larger Than Block-Size Key - Hash Key First",
        tag: "60e431591ee0b67f0d8a26aacbf5b77f8e0bc6213728c5140546040f0ee37f54",
    },
    Case {
        key: &[0xaa; 131],
        text: b"This is a test using a larger than block-size key and a larger than block-size data. The key needs to be hashed before being used by the HMAC algorithm.",
        tag: "9b09ffa71b942fcb27635fbcd5b0e944bfdc63644f0713938a7f51535c3a35e2",
    },
];

/// What Python's `hmac` computes for no key and no text, and for keys round the length of a block.
const COMPUTED: &[Case] = &[
    Case {
        key: &[],
        text: &[0xdd; 0],
        tag: "b613679a0814d9ec772f95d778c35fc5ff1697c493715653c6c712144292c5ad",
    },
    Case {
        key: &[7; 64],
        text: &[0xdd; 3],
        tag: "ceaeb77390f1fd7749b4734d798a57a3cd668f40095f8271dc4f97512aa7c2c3",
    },
    Case {
        key: &[7; 65],
        text: &[0xdd; 3],
        tag: "a0237e0573368230e0a3395cd5930254ed26b78d608455dd299db6bc47a3a40f",
    },
];

// Returns whether the computed tag begins as `case` says.
fn is_tagged(alloc: Global, case: &Case) -> Result<bool, Fail> {
    let tag = hex::encode(alloc, mac(case.key, case.text).as_slice())?;
    Ok(tag.as_str().starts_with(case.tag))
}

#[test]
fn tags_are_those_of_others(rt: HostRuntime) -> Result<(), Fail> {
    for case in PUBLISHED.iter().chain(COMPUTED) {
        assert!(rt; is_tagged(rt.alloc(), case)?, "{}", case.tag);
    }
    Ok(())
}
