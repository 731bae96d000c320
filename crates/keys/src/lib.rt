//! Keys, the roles that list them, and who signed (TUF 1.0 sections 4.2 and 4.3).
#![tactic(auto)]

mod direct;
mod entries;
mod judge;
mod key;
mod ring;
mod role_keys;
mod signers;
mod threshold;

pub use direct::{Direct, is_signed_by};
pub use entries::{Entries, Placed};
pub use judge::{Algorithm, Ask, DigestAsk, Judge, SignatureAsk};
pub use key::{Key, is_lms, key_id, public_value};
pub use ring::KeyRing;
pub use role_keys::RoleKeys;
pub use signers::Signers;
pub use threshold::enough;
