/// A writing call on a file of a depot, as its record of calls keeps it. Places and lengths are in bytes.
#[derive(Clone, Copy, Debug, PartialEq, Eq)]
pub enum DeviceCall {
    /// So many bytes were written from this place on.
    Write { at: u64, length: u64 },
    /// The file was cut to this size.
    Cut { size: u64 },
    /// All that was written was forced to the device, as by fsync.
    Sync,
}
