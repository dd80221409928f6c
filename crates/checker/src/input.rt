// The bytes that are checked, few enough to be looked at.
ghost use Rattle.std.specs.Prelude.{◌≡◌, ◌<◌, true, length};
ghost use Rattle.cbor.specs.Encoding.{all_bytes};
ghost use Rattle.cbor.specs.declared.TheConstants.{TOO_MANY_BYTES};

#[derive(Clone, Copy)]
pub(crate) struct Input<'a> {
    pub(crate) bytes: &'a [u8],
    ghost few: { length bytes.now < TOO_MANY_BYTES },
    ghost below_256: { all_bytes bytes.now ≡ true },
}
