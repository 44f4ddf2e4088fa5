/// Why no member begins again from an image.
#[derive(Clone, Copy, Debug, PartialEq, Eq)]
pub enum RestoreFault {
    /// No member of this group writes such an image, or it has more signed claims than the key can make signatures, or fewer than the key
    /// has made. Whoever wrote the image, or chose the key, is to blame.
    NotKept,

    /// Memory ran out, which is nobody's fault.
    NoMemory,
}
