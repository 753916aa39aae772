//! A lock for values that are known by a key.
//!
//! A `Mutex` knows its value by the type alone. So nothing would say that a seat behind it belongs to the table
//! beside it. A `KeyLock` has a key, which is plain data that contracts alone see, and keeps a value that fits it:
//! who takes the value knows that it fits, and who puts one back shows it.
//!
//! Its user writes four things:
//!
//! - `impl Keyed` for the value's type, with the type of its keys and what fits. A type of keys may be a struct of
//!   ghost fields alone, as the `table_id` of a table and some numbers; no value of it is ever made.
//! - `impl Names<Key> for Brand`, with any key and `named = false`, as the trait asks for one.
//! - `KeyLock::new::<Brand>(alloc, value)`, and in the `Invariants.antt` of the function around that call the key that
//!   is meant, as `ghosts-new a = record { key = ..; named = true }`, where `a.value` is the value. A maker that picks
//!   no key is refused, since `new` requires `named`. A key that the value does not tell comes by a type parameter of
//!   that function, `J: Names<Key>`, and is picked at the call of that function.
//! - an `ensures` of that function that states the key, as `IfOk result (λ lock. lock.key ≡ ..)`. What no clause of
//!   the maker says of the key, nobody who takes the value knows.
//!
//! Contracts see a `KeyLock` and a `Hold` as which lock it is (`table`, which no other lock has) and its `key`.
#![tactic(auto)]

mod bell;
mod count;
mod key;
mod lock;
mod pauses;
mod rule;
mod sleepers;

pub use bell::Bell;
pub use key::{Keyed, Names};
pub use lock::{Hold, KeyLock};
pub use sleepers::Sleepers;
