//! Why a body holds no object that can be stored.

use kube_meta::Memory;

/// Why a body holds no object that can be stored; the first of these that holds.
#[derive(Clone, Copy, Debug, PartialEq, Eq)]
pub enum ObjNo {
    /// The body isn't one JSON text (RFC 8259) in UTF-8, or nests more than 127 deep.
    NotJson,
    /// Some number was written with a fraction or an exponent, or as `-0`, or isn't from -2^63 to
    /// 2^64 - 1.
    Float,
    /// Arrays and objects nest more than 64 deep.
    TooDeep,
    /// The value isn't an object, or its `apiVersion` or `kind` is another one than the resource's.
    WrongKind,
    /// `metadata` isn't an object; or its `name`, `namespace`, `labels` or `resourceVersion` isn't
    /// one that may be stored here.
    BadMeta,
    Memory,
}

impl From<Memory> for ObjNo {
    ghost use Rattle.std.specs.Prelude.{◌≡◌};
    ghost use Rattle.json_obj.specs.declared.refusals.ObjNo.TheVariants as refusals;

    ghost from_gives = { λ _ refusal. refusal ≡ refusals.Memory };

    fn from(_: Memory) -> ObjNo {
        ObjNo::Memory
    }
}
