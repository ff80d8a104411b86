//! Responses of the Online Certificate Status Protocol that are read, or refused.

mod accepted;
mod of_openssl;
mod reading;
mod refused;
mod refusing;
mod sixteen;
