//! What has come of an invocation's notifications, what handles stand for, and whether what is awaited has come.
pub use journal_model::{Notification, NotificationId, NotificationResult};
pub use vm_awaits::{
    AsyncResultsState, AwaitState, CreateHandleError, FlatTree, ReadyNotifications,
    ResolveFutureResult, Slots,
};
