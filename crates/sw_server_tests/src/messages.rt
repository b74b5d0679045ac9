mod fields;
mod replies;
mod requests;
