// The examples, as the standards print them.
ghost use Rattle.std.specs.Prelude.{◌≡◌, IfOk};
ghost use Rattle.std.specs.List.{repeat};

use std::alloc::{AllocError, Global};

/// Bytes that a standard describes: `part`, so many times over.
pub struct Repeated {
    pub part: &'static [u8],
    pub times: usize,
}

impl Repeated {
    pub fn bytes(&self, alloc: Global) -> Result<Vec<u8>, AllocError>
        ensures { IfOk result (λ v. v.items ≡ repeat self.now.times self.now.part.now) }
    {
        self.part.repeat(alloc, self.times)
    }
}

/// A message, with the key of a tag, and the digest or the tag in hexadecimal as far as it is published.
pub struct Case {
    pub name: &'static str,
    pub key: Option<Repeated>,
    pub message: Repeated,
    pub published: &'static str,
}

pub static CASES: [Case; 12] = [
    // The examples of SHA-256 that NIST publishes with FIPS 180-4.
    Case {
        name: "SHA-256 of the empty message",
        key: None,
        message: Repeated {
            part: b"",
            times: 1,
        },
        published: "e3b0c44298fc1c149afbf4c8996fb92427ae41e4649b934ca495991b7852b855",
    },
    Case {
        name: "SHA-256 of abc",
        key: None,
        message: Repeated {
            part: b"abc",
            times: 1,
        },
        published: "ba7816bf8f01cfea414140de5dae2223b00361a396177a9cb410ff61f20015ad",
    },
    Case {
        name: "SHA-256 of the 448-bit message",
        key: None,
        message: Repeated {
            part: b"abcdbcdecdefdefgefghfghighijhijkijkljklmklmnlmnomnopnopq",
            times: 1,
        },
        published: "248d6a61d20638b8e5c026930c3e6039a33ce45964ff2167f6ecedd419db06c1",
    },
    Case {
        name: "SHA-256 of the 896-bit message",
        key: None,
        message: Repeated {
            part: b"abcdefghbcdefghicdefghijdefghijkefghijklfghijklmghijklmnhijklmnoijklmnopjklmnopqklmnopqrlmnopqrsmnopqrstnopqrstu",
            times: 1,
        },
        published: "cf5b16a778af8380036ce59e7b0492370b249b11e8f07a51afac45037afee9d1",
    },
    Case {
        name: "SHA-256 of a million a",
        key: None,
        message: Repeated {
            part: b"a",
            times: 1000000,
        },
        published: "cdc76e5c9914fb9281a1c7e284d73e67f1809a48a497200e046d39ccc7112cd0",
    },
    // The cases of RFC 4231. It publishes the first 16 bytes of the fifth.
    Case {
        name: "HMAC-SHA-256, RFC 4231 case 1",
        key: Some(Repeated {
            part: b"\x0b",
            times: 20,
        }),
        message: Repeated {
            part: b"Hi There",
            times: 1,
        },
        published: "b0344c61d8db38535ca8afceaf0bf12b881dc200c9833da726e9376c2e32cff7",
    },
    Case {
        name: "HMAC-SHA-256, RFC 4231 case 2",
        key: Some(Repeated {
            part: b"Jefe",
            times: 1,
        }),
        message: Repeated {
            part: b"what do ya want for nothing?",
            times: 1,
        },
        published: "5bdcc146bf60754e6a042426089575c75a003f089d2739839dec58b964ec3843",
    },
    Case {
        name: "HMAC-SHA-256, RFC 4231 case 3",
        key: Some(Repeated {
            part: b"\xaa",
            times: 20,
        }),
        message: Repeated {
            part: b"\xdd",
            times: 50,
        },
        published: "773ea91e36800e46854db8ebd09181a72959098b3ef8c122d9635514ced565fe",
    },
    Case {
        name: "HMAC-SHA-256, RFC 4231 case 4",
        key: Some(Repeated {
            part: b"\x01\x02\x03\x04\x05\x06\x07\x08\x09\x0a\x0b\x0c\x0d\x0e\x0f\x10\x11\x12\x13\x14\x15\x16\x17\x18\x19",
            times: 1,
        }),
        message: Repeated {
            part: b"\xcd",
            times: 50,
        },
        published: "82558a389a443c0ea4cc819899f2083a85f0faa3e578f8077a2e3ff46729665b",
    },
    Case {
        name: "HMAC-SHA-256, RFC 4231 case 5",
        key: Some(Repeated {
            part: b"\x0c",
            times: 20,
        }),
        message: Repeated {
            part: b"Test With Truncation",
            times: 1,
        },
        published: "a3b6167473100ee06e0c796c2955552b",
    },
    Case {
        name: "HMAC-SHA-256, RFC 4231 case 6",
        key: Some(Repeated {
            part: b"\xaa",
            times: 131,
        }),
        message: Repeated {
            part: b"Test Using Larger Than Block-Size Key - Hash Key First",
            times: 1,
        },
        published: "60e431591ee0b67f0d8a26aacbf5b77f8e0bc6213728c5140546040f0ee37f54",
    },
    Case {
        name: "HMAC-SHA-256, RFC 4231 case 7",
        key: Some(Repeated {
            part: b"\xaa",
            times: 131,
        }),
        message: Repeated {
            part: b"This is a test using a larger than block-size key and a larger than block-size data. The key needs to be hashed before being used by the HMAC algorithm.",
            times: 1,
        },
        published: "9b09ffa71b942fcb27635fbcd5b0e944bfdc63644f0713938a7f51535c3a35e2",
    },
];
