// SHA-256 of FIPS 180-4 and HMAC-SHA-256 of RFC 2104, each proved to give what its standard defines.
#![tactic(auto)]

mod examples;
mod mac;
mod message;
mod rounds;
mod seal;
mod state;

pub use examples::examples_stand;
pub use mac::MacKey;
pub use mac::tags::hmac_sha256;
pub use message::sha256;
pub use seal::same_seal;
