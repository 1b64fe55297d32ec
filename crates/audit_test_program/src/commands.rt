//! Commands over words, readers, writers, devices and files.
mod files;
mod followed;
mod replays;
mod salvages;
mod stores;
